// Omega between -943/256 and 505/256, by a table.
#![tactic(auto)]

mod table;

ghost use Rattle.std.specs.Prelude.{◌≡◌, ◌-◌, ◌<◌, min, pos};
ghost use Rattle.circuit.specs.Omega.{entry_count, entry_at};

use table::OMEGA;

// How many entries the table has.
pub const ENTRIES: usize = 1449;

fn read(n: usize) -> u32
    requires { n < entry_count }
    ensures { pos result ≡ entry_at n }
{
    OMEGA[n]
}

// The entry for (n - 943)/256, in parts of 2^24; past the table, its last.
pub fn entry(n: usize) -> u32
    ensures { pos result ≡ entry_at (min n (entry_count - 1)) }
{
    read(n.min(ENTRIES - 1))
}
