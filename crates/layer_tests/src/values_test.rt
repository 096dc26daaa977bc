use values::{PlanRecord, PlanRow, Value, bytes_of_number, number_of_bytes};

fn orbit_row(y: u64) -> PlanRow {
    PlanRow::Orbit {
        x: 0x40ba_d700_0000_0000,
        y,
        z: 0x8000_0000_0000_0000,
        epoch: 4_294_967_295,
    }
}

fn through(row: PlanRow) -> PlanRow {
    PlanRecord::from_row(row).to_row()
}

// Every pattern of not-a-number is read as the one, which is written 7ff8000000000000.
#[test]
fn nan_has_one_row_form(rt: HostRuntime) {
    let one = orbit_row(0x7ff8_0000_0000_0000);
    assert_eq!(rt; through(orbit_row(0x7ff0_0000_0000_0001)), one);
    assert_eq!(rt; through(orbit_row(0xffff_ffff_ffff_ffff)), one);
    assert_eq!(rt; through(one), one);
}

#[test]
fn other_rows_stay(rt: HostRuntime) {
    assert_eq!(rt;
        through(orbit_row(0x7ff0_0000_0000_0000)),
        orbit_row(0x7ff0_0000_0000_0000)
    );
    assert_eq!(rt; through(orbit_row(1)), orbit_row(1));
    assert_eq!(rt; through(PlanRow::Empty), PlanRow::Empty);
    let booking = PlanRow::Booking {
        station: 65_535,
        start: 1,
        end: 0,
    };
    assert_eq!(rt; through(booking), booking);
}

#[test]
fn numbers_by_bytes(rt: HostRuntime) {
    assert_eq!(rt; number_of_bytes([255, 255, 255, 249]), -7);
    assert_eq!(rt; number_of_bytes([128, 0, 0, 0]), i32::MIN);
    assert_eq!(rt; number_of_bytes([1, 2, 3, 4]), 16_909_060);
    assert!(rt; bytes_of_number(-7) == [255, 255, 255, 249]);
    assert!(rt; bytes_of_number(i32::MAX) == [127, 255, 255, 255]);
    assert_eq!(rt; i32::from_row(5.to_row()), 5);
}
