//! Tests of `linked_records`.
ghost use Rattle.std.specs.Prelude.{◌≡◌, ◌<◌, ◌∷◌, [], IfOk, IfSome};
ghost use Rattle.linked_records.specs.View.{IsListed};

use linked_records::{Records, Steps};
use std::alloc::{AllocError, Global};
use std::marker::Brand;
use std::sync::ledger::{Blank, Ledger};

// The index after one that is given, if there is one.
fn after(records: &Records<u32>, here: Option<u32>) -> Option<u32>
    requires { IfSome here (λ item. IsListed records.now.lists item) }
    ensures { IfSome result (λ item. IsListed records.now.lists item) }
{
    records.next(here?)
}

// The index of the record at a place of a list; nothing where there is none.
fn nth(records: &Records<u32>, list: u32, place: usize) -> Option<u32>
    ensures { IfSome result (λ item. IsListed records.now.lists item) }
{
    if list as usize >= records.lists() {
        return None;
    }
    let mut here = records.front(list);
    for _ in 0..place {
        here = after(records, here);
    }
    here
}

// Whether a list has these indices and records, in this order.
fn shows(records: &Records<u32>, list: u32, wanted: &[(u32, u32)]) -> bool {
    for (place, (index, value)) in wanted.iter().enumerate() {
        match nth(records, list, place) {
            Some(item) if item == *index && records.get(item) == value => {}
            _ => return false,
        }
    }
    nth(records, list, wanted.len()).is_none()
}

// Two lists, the first with three records.
fn three(alloc: Global) -> Result<Records<u32>, AllocError>
    ensures { IfOk result (λ r. (r.lists ≡ ((0, 10) ∷ (1, 20) ∷ (2, 30) ∷ []) ∷ [] ∷ [])
        × (r.given ≡ 3)) }
{
    let mut records = Records::new(alloc, 2)?;
    records.reserve()?;
    records.insert_back(0, 10);
    records.reserve()?;
    records.insert_back(0, 20);
    records.reserve()?;
    records.insert_back(0, 30);
    Ok(records)
}

// The record at a place is removed, and handed out.
fn removed(records: &mut Records<u32>, list: u32, place: usize) -> Option<u32> {
    let item = nth(records, list, place)?;
    Some(records.remove(item))
}

// Another record is put at the back of a list in its room. The index of that one is given.
fn renewed(
    records: &mut Records<u32>,
    list: u32,
    place: usize,
    to: u32,
    value: u32,
) -> Option<u32> {
    let item = nth(records, list, place)?;
    records.remove(item);
    if to as usize >= records.lists() {
        return None;
    }
    Some(records.insert_back(to, value))
}

// Whether there was one that was moved to the back of its list.
fn moves_back(records: &mut Records<u32>, list: u32, place: usize) -> bool {
    match nth(records, list, place) {
        Some(item) => {
            records.move_back(item);
            true
        }
        None => false,
    }
}

// Whether there was one that was moved to a list that is there.
fn moves_to(records: &mut Records<u32>, list: u32, place: usize, to: u32) -> bool {
    match nth(records, list, place) {
        Some(item) if (to as usize) < records.lists() => {
            records.move_to(item, to);
            true
        }
        _ => false,
    }
}

// Whether there was one that was written over.
fn writes(records: &mut Records<u32>, list: u32, place: usize, value: u32) -> bool {
    match nth(records, list, place) {
        Some(item) => {
            *records.get_mut(item) = value;
            true
        }
        None => false,
    }
}

// A record keeps its index where it is moved or written over.
fn keep_indices(records: &mut Records<u32>) -> bool {
    shows(records, 0, &[(0, 10), (1, 20), (2, 30)])
        && shows(records, 1, &[])
        && moves_back(records, 0, 0)
        && shows(records, 0, &[(1, 20), (2, 30), (0, 10)])
        && moves_to(records, 0, 0, 1)
        && moves_to(records, 0, 0, 1)
        && shows(records, 0, &[(0, 10)])
        && writes(records, 1, 0, 21)
        && shows(records, 1, &[(1, 21), (2, 30)])
}

#[test]
fn records_keep_their_order_and_index(rt: HostRuntime) -> Result<(), AllocError> {
    let mut records = three(rt.alloc())?;
    assert!(rt; keep_indices(&mut records));
    Ok(())
}

// The indices that three insertions give, and one more after the second record was removed.
fn indices(alloc: Global) -> Result<(u32, u32, u32, Option<u32>), AllocError>
    ensures { IfOk result (λ r. (r.0 ≡ 0) × (r.1 ≡ 1) × (r.2 ≡ 2)) }
{
    let mut records = Records::new(alloc, 2)?;
    records.reserve()?;
    let first = records.insert_back(0, 10);
    records.reserve()?;
    let second = records.insert_back(1, 20);
    records.reserve()?;
    let third = records.insert_back(0, 30);
    Ok((first, second, third, renewed(&mut records, 1, 0, 0, 40)))
}

#[test]
fn indices_are_given_out_from_0_on(rt: HostRuntime) -> Result<(), AllocError> {
    assert!(rt; indices(rt.alloc())? == (0, 1, 2, Some(1)));
    Ok(())
}

// The middle, the first, the last and the only one of a list are removed.
fn lose_each(records: &mut Records<u32>) -> bool {
    renewed(records, 0, 1, 0, 40) == Some(1)
        && shows(records, 0, &[(0, 10), (2, 30), (1, 40)])
        && removed(records, 0, 0) == Some(10)
        && shows(records, 0, &[(2, 30), (1, 40)])
        && removed(records, 0, 1) == Some(40)
        && shows(records, 0, &[(2, 30)])
        && removed(records, 0, 0) == Some(30)
        && shows(records, 0, &[])
}

#[test]
fn a_record_is_removed_wherever_it_stands(rt: HostRuntime) -> Result<(), AllocError> {
    let mut records = three(rt.alloc())?;
    assert!(rt; lose_each(&mut records));
    Ok(())
}

// Whether a new list is empty, and takes a record.
fn takes_one(records: &mut Records<u32>) -> bool {
    shows(records, 2, &[])
        && moves_to(records, 0, 2, 2)
        && shows(records, 0, &[(0, 10), (1, 20)])
        && shows(records, 2, &[(2, 30)])
}

#[test]
fn a_new_list_is_empty(rt: HostRuntime) -> Result<(), AllocError> {
    let mut records = three(rt.alloc())?;
    let list = records.add_list()?;
    assert!(rt; list == 2 && records.lists() == 3 && takes_one(&mut records));
    Ok(())
}

// The counted calls: the first record goes to the back, the second to another list, the third is
// removed, and another comes there in its room. Gives which one stood after the third, and which
// one is then the first of that list.
fn counted<L: Ledger>(records: &mut Records<u32>, steps: &mut Steps<L>) -> Option<(u32, u32)> {
    let first = nth(records, 0, 0)?;
    records.move_back_counted(first, steps);
    let second = nth(records, 0, 0)?;
    if records.lists() < 2 {
        return None;
    }
    records.move_to_counted(second, 1, steps);
    let third = nth(records, 0, 0)?;
    let next = records.next_counted(third, steps)?;
    records.remove_counted(third, steps);
    if records.lists() < 2 {
        return None;
    }
    records.insert_back_counted(1, 40, steps);
    let front = records.front_counted(1, steps)?;
    Some((next, front))
}

// Whether the counted calls do the same.
fn do_the_same<L: Ledger>(records: &mut Records<u32>, blank: Blank) -> bool
    requires name { blank.name ≡ L.name }
    requires parts { blank.parts ≡ L.parts }
    requires some { 0 < blank.parts }
{
    let mut steps = Steps::<L>::new(blank);
    counted(records, &mut steps) == Some((0, 1))
        && shows(records, 0, &[(0, 10)])
        && shows(records, 1, &[(1, 20), (2, 40)])
}

#[test]
fn counted_calls_do_the_same(rt: HostRuntime) -> Result<(), AllocError> {
    let mut records = three(rt.alloc())?;
    assert!(rt; do_the_same::<Brand>(&mut records, Blank::new(1)));
    Ok(())
}
