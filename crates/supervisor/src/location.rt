// Locations in memory, from a partition's addresses.
ghost use Rattle.std.specs.Prelude.{◌≡◌, ◌+◌, ◌<◌, ◌≤◌};
ghost use Rattle.table.specs.Table.{partition_end};
ghost use Rattle.supervisor.specs.Location.{location_of, input_location, output_location};

use common::{Address, Location};
use table::Partition;

// The location of a machine address: the only way from one to the other is the partition's base.
fn location_of(p: Partition, a: Address) -> Location
    requires { p.base.0 + a.0 < 4294967296 }
    ensures { result ≡ location_of p a }
{
    Location(p.base.0 + a.0 as u32)
}

// Where the input buffer starts: at the first address outside the window.
pub(crate) fn input_location(p: Partition) -> Location
    requires { partition_end p ≤ 65536 }
    ensures { result ≡ input_location p }
{
    location_of(p, Address(p.layout.window))
}

// Where the output buffer starts: behind the input buffer.
pub(crate) fn output_location(p: Partition) -> Location
    requires { partition_end p ≤ 65536 }
    ensures { result ≡ output_location p }
{
    Location(input_location(p).0 + p.layout.input as u32)
}
