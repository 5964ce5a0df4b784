//! The bench that the console drives.
ghost use Rattle.std.specs.Prelude.{◌≡◌};
ghost use Rattle.bench.specs.Standard.{stands, standard};

use crate::bench::Bench;
use arithmetic::Tabled;
use codec::{Receiver, Sender};
use lines::{Ring, Role, Scrambler, Seed};

/// A bench whose ends are both the master at state 1, over the tabled arithmetic and the ring code.
pub fn standard_bench() -> Bench<Tabled, Scrambler, Ring>
    ensures both_ends_alike { stands result ≡ standard }
    ensures counts_from_0 { result.number ≡ 0 }
{
    // As in two programs: a public function for it in the crate `lines` would be longer than this line.
    let stream = Scrambler::from_seed(Role::Master, Seed::ONE);
    Bench::new(
        Sender::new(Tabled, stream, Ring),
        Receiver::new(Tabled, stream, Ring),
    )
}
