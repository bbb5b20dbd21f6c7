ghost use Rattle.std.specs.Prelude.{◌≡◌, true, false, Some, None, Ok, Err, [], ◌∷◌, ◌++◌, codes, replicate};
ghost use Rattle.os9_base.specs.declared.errors.TheConstants.{E_BPADDR, E_BMODE, E_BPNAM, E_MNF, E_PNNF};
ghost use Rattle.os9_base.specs.declared.name_fault.NameFault.TheVariants.{Unreadable, NoName};
ghost use Rattle.io_model.specs.PathList.{PathList, path_list};
ghost use Rattle.io_model.specs.Rows.{cells_with, opening, creating};
ghost use Rattle.io_model.specs.Step.{refused};

/// A path list ends before the first byte that does not continue a name, or after a character with
/// bit 7. A slash continues the list only if a character of a name follows it.
pub fn path_lists_are_read()
    ensures device { path_list (cells_with (codes "/TERM" ++ 13 ∷ [])) 0
        ≡ Ok (record { device = Some (codes "TERM"); names = []; slash = false; next = 5 }) }
    ensures marked { path_list (cells_with (codes "/T" ++ 0xB1 ∷ [])) 0
        ≡ Ok (record { device = Some (codes "T1"); names = []; slash = false; next = 3 }) }
    ensures names { path_list (cells_with (codes "/D0/CMDS/x y")) 0
        ≡ Ok (record {
          device = Some (codes "D0");
          names = codes "CMDS" ∷ codes "x" ∷ [];
          slash = false;
          next = 10;
        }) }
{}

/// A list without a slash before its first name has no device. A slash without a name after it does
/// not belong to the list.
pub fn relative_lists_are_read()
    ensures relative { path_list (cells_with (codes "..//")) 0
        ≡ Ok (record { device = None; names = codes ".." ∷ []; slash = true; next = 2 }) }
{}

/// A path list that breaks off, or whose device does not exist, opens nothing. Without a directory
/// nothing is found.
pub fn path_lists_are_refused()
    ensures unreadable { opening 0 1 (codes "/TERM/") ≡ refused E_BPADDR }
    ensures no_byte { opening 0 0 [] ≡ refused E_BPADDR }
    ensures mode { opening 0 0x40 (codes "//") ≡ refused E_BMODE }
    ensures no_name { opening 0 1 (codes "//") ≡ refused E_BPNAM }
    ensures too_long { opening 0 1 (codes "/TERM/" ++ replicate 30 65) ≡ refused E_BPNAM }
    ensures slash { opening 0 1 (codes "/PIPE/,") ≡ refused E_BPNAM }
    ensures no_device { opening 0 1 (codes "/T4 ") ≡ refused E_MNF }
    ensures drive { opening 1 1 (codes "/D0 ") ≡ refused E_MNF }
    ensures no_directory { opening 0 1 (codes "File ") ≡ refused E_PNNF }
{}

/// Nothing is made without a mode that can write, at a root, or by the name of a directory itself
/// or of its parent. A terminal is opened.
pub fn places_are_refused()
    ensures mode { creating 0 1 (codes "/TERM ") ≡ refused E_BMODE }
    ensures root { creating 1 2 (codes "/D0 ") ≡ refused E_BPNAM }
    ensures dots { creating 0 2 (codes ".. ") ≡ refused E_BPNAM }
    ensures dots_on_drive { creating 1 2 (codes "/D0/X/. ") ≡ refused E_BPNAM }
    ensures file { creating 1 2 (codes "/D0/X ") ≡ refused E_MNF }
    ensures no_directory { creating 0 2 (codes "File ") ≡ refused E_PNNF }
    ensures terminal { creating 0 2 (codes "/T1 ") ≡ opening 0 2 (codes "/T1 ") }
{}
