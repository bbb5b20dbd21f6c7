ghost use Rattle.rbf_sector_rules.specs.Identified.{IsIdent};

use rbf_sector::Ident;

/// An image that holds the volume that its identification sector describes, with the fields of that
/// sector.
#[derive(Clone, Copy, Debug)]
pub struct IdentifiedImage<'a> {
    pub bytes: &'a [u8],
    pub ident: Ident,
    pub ghost identified: { IsIdent bytes.now ident },
}
