//! Regions and prices.

use gba_bus::{Region, WaitControl, Width, price, region_of};
use gba_price_table::PriceTable;
use std::process::Abort;

/// Both ends of each region, and the addresses beside them (GBATEK, GBA Memory Map).
#[test]
fn regions_have_both_ends(rt: HostRuntime) {
    for &(first, last, region) in &[
        (0x0000_0000, 0x0000_3FFF, Region::Bios),
        (0x0000_4000, 0x01FF_FFFF, Region::Other),
        (0x0200_0000, 0x02FF_FFFF, Region::Work),
        (0x0300_0000, 0x03FF_FFFF, Region::Inner),
        (0x0400_0000, 0x0400_03FF, Region::Io),
        (0x0400_0400, 0x04FF_FFFF, Region::Other),
        (0x0500_0000, 0x05FF_FFFF, Region::Palette),
        (0x0600_0000, 0x06FF_FFFF, Region::Vram),
        (0x0700_0000, 0x07FF_FFFF, Region::Oam),
        (0x0800_0000, 0x09FF_FFFF, Region::Rom0),
        (0x0A00_0000, 0x0BFF_FFFF, Region::Rom1),
        (0x0C00_0000, 0x0DFF_FFFF, Region::Rom2),
        (0x0E00_0000, 0x0FFF_FFFF, Region::Sram),
        (0x1000_0000, 0xFFFF_FFFF, Region::Other),
    ] {
        let regions = (region_of(first), region_of(last));
        assert_eq!(rt; regions, (region, region), "at {first} and {last}");
    }
}

/// An access at an address costs so, by its region and by the table.
fn costs<R: Abort>(
    rt: &R,
    waits: &WaitControl,
    address: u32,
    width: Width,
    sequential: bool,
    cycles: u32,
) {
    let table = PriceTable::new(waits);
    let got = (
        price(region_of(address), width, sequential, waits),
        table.price(address, width, sequential),
        table.waits().value,
    );
    assert_eq!(rt; got, (cycles, cycles, waits.value), "at {address}");
}

/// Prices at 8, 16 and 32 bits where the wait control has no part (GBATEK, GBA Memory Map).
#[test]
fn memory_has_its_prices(rt: HostRuntime) {
    let waits = WaitControl { value: 0xFFFF };
    for &(address, byte, half, word) in &[
        (0x0000_3FFF, 1, 1, 1),
        (0x0000_4000, 1, 1, 1),
        (0x0100_0000, 1, 1, 1),
        (0x0200_0000, 3, 3, 6),
        (0x03FF_FFFF, 1, 1, 1),
        (0x0400_0000, 1, 1, 1),
        (0x0400_0400, 1, 1, 1),
        (0x05FF_FFFF, 1, 1, 2),
        (0x0600_0000, 1, 1, 2),
        (0x0700_0000, 1, 1, 1),
        (0x1000_0000, 1, 1, 1),
        (0xFFFF_FFFF, 1, 1, 1),
    ] {
        for sequential in [false, true] {
            costs(&rt, &waits, address, Width::Byte, sequential, byte);
            costs(&rt, &waits, address, Width::Half, sequential, half);
            costs(&rt, &waits, address, Width::Word, sequential, word);
        }
    }
}

/// A row: the wait control, an address, and the prices there of a halfword and of a word, each first and then
/// sequential.
type Waits = (u16, u32, [u32; 4]);

/// The wait control is 0 at reset, and 4317h where most games set it: ROM 3 and 1, SRAM 8, view 2 8 and 8 (GBATEK, GBA
/// System Control).
static WAITS: [Waits; 12] = [
    (0x0000, 0x0800_0000, [5, 3, 8, 6]),
    (0x0000, 0x0A00_0000, [5, 5, 10, 10]),
    (0x0000, 0x0C00_0000, [5, 9, 14, 18]),
    (0x0000, 0x0E00_0000, [5, 5, 5, 5]),
    (0x4317, 0x09FF_FFFF, [4, 2, 6, 4]),
    (0x4317, 0x0BFF_FFFF, [5, 5, 10, 10]),
    (0x4317, 0x0DFF_FFFF, [9, 9, 18, 18]),
    (0x4317, 0x0FFF_FFFF, [9, 9, 9, 9]),
    (0x04DA, 0x0900_0000, [3, 2, 5, 4]),
    (0x04DA, 0x0B00_0000, [3, 2, 5, 4]),
    (0x04DA, 0x0D00_0000, [5, 2, 7, 4]),
    (0x04DA, 0x0F00_0000, [3, 3, 3, 3]),
];

#[test]
fn waits_are_chosen_for_each_view(rt: HostRuntime) {
    for &(value, address, [half, next_half, word, next_word]) in &WAITS {
        let waits = WaitControl { value };
        costs(&rt, &waits, address, Width::Byte, false, half);
        costs(&rt, &waits, address, Width::Byte, true, next_half);
        costs(&rt, &waits, address, Width::Half, false, half);
        costs(&rt, &waits, address, Width::Half, true, next_half);
        costs(&rt, &waits, address, Width::Word, false, word);
        costs(&rt, &waits, address, Width::Word, true, next_word);
    }
}

/// Sixteen words from ROM view 2 at reset: the first 14 cycles, each other 18.
#[test]
fn a_block_from_view_2_costs_its_words(rt: HostRuntime) {
    let waits = WaitControl { value: 0 };
    let mut data = price(Region::Rom2, Width::Word, false, &waits);
    for _ in 0..15 {
        data = data.wrapping_add(price(Region::Rom2, Width::Word, true, &waits));
    }
    assert_eq!(rt; data, 284);
}
