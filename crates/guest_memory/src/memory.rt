ghost use Rattle.guest_memory.specs.Sound.{IsSoundMemory};

use block_map::map::Map;
use block_pool::pool::Pool;
use module_dir::Dir;

/// The memory of the machine: its blocks, the maps of all processes by their numbers, and the
/// module directory (Level Two manual, "Memory management").
#[derive(Drop)]
pub struct Memory {
    pub(crate) pool: Pool,
    pub(crate) dir: Dir,
    pub(crate) maps: Vec<Map>,
    ghost sound: { IsSoundMemory pool maps.items dir },
}
