use lists::FixedList;

#[test]
fn a_full_list_hands_the_item_back(rt: HostRuntime) {
    let mut list: FixedList<u8, 2> = FixedList::new(0);
    assert_eq!(rt; list.len(), 0);
    assert!(rt; list.push(7).is_ok());
    assert!(rt; list.push(8).is_ok());
    assert_eq!(rt; list.push(9), Err(9));
    assert!(rt; list.as_slice() == [7, 8].as_slice());
}

#[test]
fn a_list_takes_as_many_as_it_has_places_for(rt: HostRuntime) {
    let mut list: FixedList<u8, 3> = FixedList::of(&[1, 2], 0);
    assert!(rt; list.as_slice() == [1, 2].as_slice());
    list.extend(&[3, 4]);
    assert!(rt; list.as_slice() == [1, 2, 3].as_slice());
    let none: FixedList<u8, 0> = FixedList::of(&[1], 0);
    assert_eq!(rt; none.len(), 0);
}

#[derive(Clone, Copy)]
struct Labelled<'a> {
    label: &'a str,
    list: FixedList<u8, 2>,
}

// takes what holds a list by value: with an `impl Model` on the list, no caller could hand it in twice
fn len_of(labelled: Labelled<'_>) -> usize {
    labelled.list.len()
}

#[test]
fn what_holds_a_list_is_used_twice(rt: HostRuntime) {
    let labelled = Labelled {
        label: "orbit",
        list: FixedList::of(&[7], 0),
    };
    assert_eq!(rt; len_of(labelled), 1);
    assert_eq!(rt; len_of(labelled), 1);
    assert_eq!(rt; labelled.label, "orbit");
}
