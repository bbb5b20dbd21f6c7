ghost use Rattle.std.specs.Prelude.{◌≡◌, ◌≢◌, ℕ, ◌+◌, ◌*◌, ◌/◌, ◌<◌, ◌≤◌, [], ◌∷◌, All, IfOk, MatchBool, Some, None, length, slice_index_or, slice_set};
ghost use Rattle.std.specs.List.{range_with_len};
ghost use Rattle.rbf_model.specs.Decides.{Decides};
ghost use Rattle.rbf_model.specs.Segments.{sectors_of};
ghost use Rattle.rbf_segs.specs.Segments.{IsSegment};
ghost use Rattle.rbf_sector_rules.specs.Given.{IsPlaceGiven};

use std::alloc::{AllocError, Global};

/// An owner of sectors: its place among the files found, and its descriptor.
#[derive(Clone, Copy, Debug)]
pub struct Owner {
    pub place: usize,
    pub descriptor: u32,
}

/// What is known of rule 4 after the sectors of some owners have been noted.
#[derive(Drop)]
pub struct Uses {
    /// For each sector the place of the owner that used it last.
    pub users: Vec<Option<usize>>,
    /// For each cluster the descriptor of the owner that has it.
    pub owners: Vec<Option<u32>>,
    /// The least sector that breaks the rule, or the total of the volume.
    pub least: u32,
}

// Gives a cluster to an owner, if it has none, and returns whether it has another owner.
fn give(owners: &mut Vec<Option<u32>>, n: u32, c: u32) -> bool
    requires { c < length owners.old.items }
    ensures given { IsPlaceGiven owners.old.items owners.new.items n c }
    ensures another { MatchBool result ((m : ℕ) × (slice_index_or owners.old.items c None
        ≡ Some m) × (m ≢ n))
        ((m : ℕ) → slice_index_or owners.old.items c None ≡ Some m → m ≡ n) }
{
    match owners[c as usize] {
        None => {
            owners[c as usize] = Some(n);
            false
        }
        Some(m) => m != n,
    }
}

fn is_user(user: Option<usize>, place: usize) -> bool
    ensures { Decides result (user ≡ Some place) }
{
    match user {
        None => false,
        Some(other) => other == place,
    }
}

// Notes that the owner in this place uses a sector, and returns whether that was noted before.
fn note_user(users: &mut Vec<Option<usize>>, place: usize, s: u32) -> bool
    requires { s < length users.old.items }
    ensures noted { users.new.items ≡ slice_set users.old.items s (Some place) }
    ensures before { Decides result (slice_index_or users.old.items s None ≡ Some place) }
{
    let before = users[s as usize];
    users[s as usize] = Some(place);
    is_user(before, place)
}

impl Uses {
    ghost use Rattle.rbf_sector_rules.specs.Noted.{HasUser, HasOwner, IsNoted};

    /// No owner has been noted yet, for a volume of `total` sectors.
    ///
    /// # Errors
    ///
    /// Out of memory.
    pub fn new(alloc: Global, total: u32) -> Result<Uses, AllocError>
        ensures users { IfOk result (λ uses. length uses.users.items ≡ total) }
        ensures owners { IfOk result (λ uses. length uses.owners.items ≡ total) }
        ensures no_users { IfOk result (λ uses. (s p : ℕ) → ¬ HasUser uses s p) }
        ensures no_owners { IfOk result (λ uses. (c n : ℕ) → ¬ HasOwner uses c n) }
        ensures least { IfOk result (λ uses. uses.least ≡ total) }
    {
        let users = vec![in alloc; None; total as usize]?;
        let owners = vec![in alloc; None; total as usize]?;
        Ok(Uses {
            users,
            owners,
            least: total,
        })
    }

    // Notes that an owner uses a sector, for clusters of `cluster` sectors.
    fn note(&mut self, cluster: u32, owner: Owner, s: u32)
        requires cluster { 0 < cluster }
        requires users { s < length self.old.users.items }
        requires owners { s < length self.old.owners.items }
        ensures { IsNoted cluster owner (s ∷ []) self.old self.new }
    {
        let c = s / cluster;
        if give(&mut self.owners, owner.descriptor, c) {
            self.least = self.least.min(c * cluster);
            return;
        }
        if note_user(&mut self.users, owner.place, s) {
            self.least = self.least.min(s);
        }
    }

    // Notes that an owner uses the sectors of a segment. It ends at the first sector that shows a
    // breach, or whose cluster does not begin below the least breach: no later sector shows a
    // lesser breach.
    fn note_segment(&mut self, cluster: u32, owner: Owner, segment: (u32, u16))
        requires cluster { 0 < cluster }
        requires users { segment.0 + segment.1 ≤ length self.old.users.items }
        requires owners { segment.0 + segment.1 ≤ length self.old.owners.items }
        requires segment { IsSegment segment }
        ensures { IsNoted cluster owner (range_with_len segment.0 segment.1) self.old self.new }
    {
        for s in segment.0..segment.0 + u32::from(segment.1) {
            if s / cluster * cluster >= self.least {
                return;
            }
            self.note(cluster, owner, s);
            if self.least <= s {
                return;
            }
        }
    }

    /// Notes that an owner uses the sectors of its segments, for clusters of `cluster` sectors.
    pub fn note_segments(&mut self, cluster: u32, owner: Owner, segments: &[(u32, u16)])
        requires cluster { 0 < cluster }
        requires segments { All IsSegment segments.now }
        requires users { All
            (λ segment. segment.0 + segment.1 ≤ length self.old.users.items) segments.now }
        requires owners { All
            (λ segment. segment.0 + segment.1 ≤ length self.old.owners.items) segments.now }
        ensures { IsNoted cluster owner (sectors_of segments.now) self.old self.new }
    {
        for segment in segments {
            self.note_segment(cluster, owner, *segment);
        }
    }
}
