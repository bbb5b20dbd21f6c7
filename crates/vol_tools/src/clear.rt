ghost use Rattle.std.specs.Prelude.{◌+◌, ◌/◌, ◌<◌, length};
ghost use Rattle.rbf_check.specs.Lost.{IsLostOf};
ghost use Rattle.vol_tools.specs.Clearing.{ClearsMark, ClearsLostClusters};

/// Clears the marks of lost clusters in an image.
pub fn clear_marks(image: &mut Vec<u8>, lost: &[u32])
    requires { IsLostOf image.old.items lost.now }
    ensures { ClearsLostClusters image.old.items lost.now image.new.items }
{
    for c in lost {
        clear_mark(image, *c);
    }
}

// Clears the mark of a cluster in an image (OS-9 Technical Reference, Random Block File Manager, "Disk
// Allocation Map"). The map begins at byte 256.
fn clear_mark(image: &mut Vec<u8>, c: u32)
    requires { 256 + c / 8 < length image.old.items }
    ensures { ClearsMark image.old.items image.new.items c }
{
    image[256 + c as usize / 8] &= !(1 << (7 - c % 8));
}
