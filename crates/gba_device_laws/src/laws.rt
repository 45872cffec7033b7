//! What the devices keep to.

ghost use Rattle.gba_device_laws.specs.Cable.{SerialStays};
ghost use Rattle.gba_device_laws.specs.Staying.{DevicesStay};

use gba_dma::laws::stays_consistent;
use gba_psg::laws::stays_sound;
use gba_serial::laws::writes_keep_transfers;

/// The numbers of a board's devices keep to their rules, from reset on, whatever comes to them.
pub fn devices_stay()
    ensures { DevicesStay }
{
    stays_consistent();
    stays_sound();
}

/// So do the numbers of a serial unit, at clocks of a run.
pub fn serial_stays()
    ensures { SerialStays }
{
    writes_keep_transfers();
}
