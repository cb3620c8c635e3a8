//! What the calls of `ClientTable` give.
use std::alloc::{AllocError, Global};
use std::test::Fail;
use virtual_handles::ClientTable;

// The number that eight hexadecimal digits are; nothing for other words.
fn number(word: &str) -> Option<u32> {
    let mut bytes = [0; 4];
    hex::decode_to_slice(word, &mut bytes).ok()?;
    Some(u32::from_be_bytes(bytes))
}

// Adds an object where there may be one more.
fn add(table: &mut ClientTable, item: u32) -> Result<Option<u32>, AllocError> {
    table.reserve()?;
    if table.least().is_none() {
        return Ok(None);
    }
    Ok(Some(table.add(item)))
}

// Adds so many objects, whose items count down from the largest; the number of objects then.
fn fill(table: &mut ClientTable, count: u32) -> Result<Option<u32>, AllocError> {
    for number in 0..count {
        let _ = add(table, u32::MAX - number)?;
    }
    Ok(Some(table.len()))
}

// Takes out the objects from a handle up to the next one that is wanted, which is then given.
fn clear(table: &mut ClientTable, first: u32, wanted: Option<u32>) -> Option<u32> {
    for handle in first..wanted.unwrap_or(first) {
        let _ = table.remove(handle);
    }
    wanted
}

// What a call gives, by its name.
fn called(
    table: &mut ClientTable,
    name: &str,
    given: u32,
    wanted: Option<u32>,
) -> Result<Option<u32>, AllocError> {
    match name {
        "len" => Ok(Some(table.len())),
        "least" => Ok(table.least()),
        "add" => add(table, given),
        "fill" => fill(table, given),
        "find" => Ok(table.find(given)),
        "remove" => Ok(table.remove(given)),
        "clear" => Ok(clear(table, given, wanted)),
        _ => Ok(table.from(given)),
    }
}

// Whether a line `CALL GIVEN WANTED` holds.
fn holds(table: &mut ClientTable, line: &str) -> Result<bool, Fail> {
    let (name, rest) = line.split_once(' ').ok_or("a line has three words")?;
    let (given, wanted) = rest.split_once(' ').ok_or("a line has three words")?;
    let wanted = number(wanted);
    Ok(called(table, name, number(given).unwrap_or(0), wanted)? == wanted)
}

// The first line of a text that doesn't hold for a new table, from 0.
fn first_other(alloc: Global, text: &str) -> Result<Option<usize>, Fail> {
    let mut table = ClientTable::new(alloc);
    for (place, line) in text.lines().enumerate() {
        if !line.starts_with('#') && !holds(&mut table, line)? {
            return Ok(Some(place));
        }
    }
    Ok(None)
}

// A number that was freed is given again.
const FREED: &str = "\
len - 00000000
least - 80000000
from 00000000 -
add 00000007 80000000
add 00000005 80000001
add 00000000 80000002
len - 00000003
least - 80000003
find 80000000 00000007
find 80000001 00000005
find 80000002 00000000
find 80000003 -
remove 80000001 00000005
remove 80000001 -
remove 80000003 -
len - 00000002
least - 80000001
find 80000001 -
from 00000000 80000000
from 80000001 80000002
from 80000003 -
add 00000009 80000001
find 80000001 00000009
find 80000002 00000000";

// Blocks that are full, in part and not at all.
const BLOCKS: &str = "\
fill 000000c8 000000c8
least - 800000c8
# of the four blocks the first three are full
clear 8000003f 80000081
len - 00000086
least - 8000003f
from 8000003e 8000003e
from 8000003f 80000081
from 80000080 80000081
add 00000001 8000003f
add 00000002 80000040
find 8000003f 00000001
find 80000040 00000002
find 80000041 -
clear 80000081 800000c8
len - 00000041
from 80000040 80000040
from 80000041 -
find 80000000 ffffffff
find 8000003e ffffffc1";

// As many objects as a client may have.
const FULL: &str = "\
fill 00000fff 00000fff
least - 80000fff
from 80000fff -
add 00000008 80000fff
len - 00001000
least - -
find 80000fff 00000008
from 80000fff 80000fff
add 00000009 -
find 80001000 -
from 80001000 -
remove 80001000 -
find ffffffff -
from ffffffff -
find 7fffffff -
remove 7fffffff -
find 00000000 -
from 00000000 80000000
len - 00001000
remove 80000040 ffffffbf
len - 00000fff
least - 80000040
from 80000040 80000041";

#[test]
fn calls_give_what_is_wanted(rt: HostRuntime) -> Result<(), Fail> {
    for text in [FREED, BLOCKS, FULL] {
        assert_eq!(rt; first_other(rt.alloc(), text)?, None, "in {text}");
    }
    Ok(())
}
