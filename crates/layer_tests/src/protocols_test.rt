ghost use Rattle.protocols.specs.declared.question.Kind.TheVariants.{Lock};
ghost use Rattle.protocols.specs.declared.question.Placement.TheVariants.{Last};
ghost use Rattle.std.proofs.Common.{rules};

use protocols::{
    Agreement, Bank, Kind, Locking, Mode, Ordering, Placement, Protocol, Question, delivered_bank,
    delivered_kind, served_kind, stands_at,
};

fn asked(number: u8, timestamp: u32, interval: u32, bar: u32) -> Question {
    Question {
        number,
        mode: Mode::Read,
        timestamp,
        interval,
        bar,
    }
}

#[test]
fn agreement_moves_to_the_first_place_above_the_bar(rt: HostRuntime) {
    assert_eq!(rt; Agreement.place(asked(0, 5, 8, 20)), Placement::Moved(21));
    assert_eq!(rt; Agreement.place(asked(0, 5, 5, 20)), Placement::Moved(25));
    assert_eq!(rt; Agreement.place(asked(0, 20, 1, 20)), Placement::Moved(21));
    assert_eq!(rt; Agreement.place(asked(0, 21, 1, 20)), Placement::Own);
    assert_eq!(rt; Agreement.place(asked(0, 5, 0, 20)), Placement::Away);
}

#[test]
fn agreement_stops_at_the_limit(rt: HostRuntime) {
    assert_eq!(rt;
        Agreement.place(asked(0, 999_999_999, 1, 999_999_999)),
        Placement::Moved(1_000_000_000)
    );
    assert_eq!(rt;
        Agreement.place(asked(0, 999_999_999, 2, 999_999_999)),
        Placement::Away
    );
    assert_eq!(rt;
        Agreement.place(asked(0, 1, 1_000_000, 4_294_967_295)),
        Placement::Away
    );
}

#[test]
fn ordering_takes_only_what_is_above_the_bar(rt: HostRuntime) {
    assert_eq!(rt; Ordering.place(asked(0, 20, 1, 20)), Placement::Away);
    assert_eq!(rt; Ordering.place(asked(0, 21, 1, 20)), Placement::Own);
    assert_eq!(rt; Locking.place(asked(0, 1, 1, 20)), Placement::Last);
}

#[test]
fn the_delivered_bank(rt: HostRuntime) {
    let bank = delivered_bank();
    assert_eq!(rt; bank.numbers(), 3);
    assert_eq!(rt; delivered_kind(0), Some(Kind::Lock));
    assert_eq!(rt; delivered_kind(1), Some(Kind::Order));
    assert_eq!(rt; delivered_kind(2), Some(Kind::Agree));
    assert_eq!(rt; delivered_kind(3), None);
    assert_eq!(rt; bank.place(asked(1, 20, 8, 20)), Placement::Away);
    assert_eq!(rt; bank.place(asked(2, 5, 8, 20)), Placement::Moved(21));
}

#[test]
fn where_a_request_stands(rt: HostRuntime) {
    assert_eq!(rt; stands_at(&Ordering, asked(0, 21, 1, 20), 90), Some(21));
    assert_eq!(rt; stands_at(&Ordering, asked(0, 20, 1, 20), 90), None);
    assert_eq!(rt;
        stands_at(&delivered_bank(), asked(0, 5, 5, 20), 90),
        Some(90)
    );
    assert_eq!(rt;
        stands_at(&delivered_bank(), asked(2, 5, 5, 20), 90),
        Some(25)
    );
}

// A protocol of 200 numbers.
#[derive(Drop)]
struct Wide;

impl Protocol for Wide {
    ghost count = { λ _. 200 };

    ghost kinds = { λ _ _. Lock };

    ghost placed = { λ _ _. Last };

    ghost few = { Prim.search rules };

    ghost terms = { Prim.search rules };

    fn numbers(&self) -> u16 {
        200
    }

    fn kind(&self, _number: u8) -> Kind {
        Kind::Lock
    }

    fn place(&self, _question: Question) -> Placement {
        Placement::Last
    }
}

#[test]
fn a_bank_serves_no_more_than_256(rt: HostRuntime) {
    let bank = Bank {
        first: Wide,
        second: Bank {
            first: Ordering,
            second: Wide,
        },
    };
    assert_eq!(rt; bank.numbers(), 256);
    assert_eq!(rt; served_kind(&bank, 199), Some(Kind::Lock));
    assert_eq!(rt; served_kind(&bank, 200), Some(Kind::Order));
    assert_eq!(rt; served_kind(&bank, 255), Some(Kind::Lock));
    assert_eq!(rt; bank.place(asked(200, 20, 1, 20)), Placement::Away);
    assert_eq!(rt; served_kind(&bank.second, 200), Some(Kind::Lock));
    assert_eq!(rt; served_kind(&bank.second, 201), None);
}
