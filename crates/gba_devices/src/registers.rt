//! Whose halfword an offset is, and which words go into the sound queues.

ghost use Rattle.std.specs.Prelude.{◌≡◌, ◌<◌, IfSome};
ghost use Rattle.gba_devices.specs.Registers.{owner_of, queue_of};

use gba_bus::Width;

/// Which device a halfword of the I/O registers belongs to.
#[derive(Clone, Copy, Debug, PartialEq, Eq)]
pub(crate) enum Owner {
    PictureBlock,
    ToneBlock,
    SoundBlock,
    DmaBlock,
    TimerBlock,
    KeyBlock,
    InterruptBlock,
    WaitControl,
    PostFlag,
    Nobody,
}

/// Whose halfword stands at an offset from 04000000h.
#[tactic(auto, unfolding(crate::specs::Registers::owner_of))]
pub(crate) fn owner_of(offset: u32) -> Owner
    ensures { result ≡ owner_of offset }
{
    if offset < 0x056 {
        Owner::PictureBlock
    } else if 0x060 <= offset && offset < 0x082 {
        Owner::ToneBlock
    } else if 0x082 <= offset && offset < 0x08A {
        Owner::SoundBlock
    } else if 0x090 <= offset && offset < 0x0A0 {
        Owner::ToneBlock
    } else if 0x0B0 <= offset && offset < 0x0E0 {
        Owner::DmaBlock
    } else if 0x100 <= offset && offset < 0x110 {
        Owner::TimerBlock
    } else if 0x130 <= offset && offset < 0x134 {
        Owner::KeyBlock
    } else if offset == 0x204 {
        Owner::WaitControl
    } else if 0x200 <= offset && offset < 0x20A {
        Owner::InterruptBlock
    } else if offset == 0x300 {
        Owner::PostFlag
    } else {
        Owner::Nobody
    }
}

/// The sound queue that an access writes, A or B as 0 or 1: those of words at 0A0h and at 0A4h.
pub(crate) fn queue_of(offset: u32, width: Width) -> Option<u32>
    ensures value { result ≡ queue_of offset width }
    ensures few { IfSome result (λ queue. queue < 2) }
{
    match width {
        Width::Word => match offset - offset % 4 {
            0x0A0 => Some(0),
            0x0A4 => Some(1),
            _ => None,
        },
        _ => None,
    }
}
