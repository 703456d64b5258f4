// The figures of an outage log.
ghost use Rattle.outages.specs.Outages.{Figures};

use outages::write_minutes;
use quantities::number_met;

// Writes HD, HMP, HIF and HED of a log, four bytes each, low byte first; answers the number met, since C has no Result (include/plant.h).
#[unsafe(no_mangle)]
pub extern "C" fn plant_outages(log: &[u8], figures: &mut [u8]) -> u32
    ensures { Figures log.now figures.old result figures.new }
{
    number_met(write_minutes(log, figures))
}
