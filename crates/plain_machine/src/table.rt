ghost use Rattle.std.specs.Prelude.{◌≡◌, ◌≤◌, ◌<◌, ◌&&◌, nat_le, false, true, None, Some, is_some};
ghost use Rattle.std.specs.Prelude.{length, option_map, vec_len, vec_capacity, MatchOption};
ghost use Rattle.tab_spec.specs.declared.TheConstants.{TRANSIENT_FIRST};
ghost use Rattle.effect_spec.specs.Capabilities.{transient_from};
ghost use Rattle.fx_capability.specs.Lists.{number_from};
ghost use Rattle.history_spec.specs.Table as table;
ghost use Rattle.history_spec.specs.Table.{count_held, number_of_object};
ghost use Rattle.tab_values.specs.Views.{object_of};
ghost use Rattle.plain_machine.specs.Views.{objects_of};

use history_spec::CLIENT_OBJECTS;
use tab_spec::TRANSIENT_FIRST;
use tab_values::Object;

// The number of a handle, from 0; 0 for a handle below those of objects.
fn number_of(handle: u32) -> usize
    ensures { result ≡ number_of_object handle }
{
    handle.saturating_sub(TRANSIENT_FIRST) as usize
}

// The object under a handle.
pub(crate) fn held_under(places: &[Option<Object>], handle: u32) -> Option<&Object>
    ensures { MatchOption result
        (table.held_under (objects_of places.now) handle ≡ None)
        (λ o. table.held_under (objects_of places.now) handle ≡ Some (object_of o.now)) }
{
    if handle < TRANSIENT_FIRST {
        return None;
    }
    places.get(number_of(handle))?.as_ref()
}

// How many objects there are.
pub(crate) fn held_count(places: &[Option<Object>]) -> usize
    ensures count { result ≡ count_held (objects_of places.now) }
    ensures most { result ≤ length places.now }
{
    places.iter().filter(|place| place.is_some()).count()
}

// Whether there are as many objects as a client may have.
pub(crate) fn is_full(places: &[Option<Object>]) -> bool
    ensures { result ≡ table.is_full (objects_of places.now) }
{
    held_count(places) >= CLIENT_OBJECTS as usize
}

// The least handle of an object that isn't below `least`.
pub(crate) fn handle_from(places: &[Option<Object>], least: u32) -> Option<u32>
    requires { length places.now ≤ CLIENT_OBJECTS }
    ensures { result ≡ number_from least (transient_from TRANSIENT_FIRST (objects_of places.now)) }
{
    for (number, place) in places.iter().enumerate() {
        let handle = TRANSIENT_FIRST + number as u32;
        if is_object_from(place, handle, least) {
            return Some(handle);
        }
    }
    None
}

// Whether there is an object in a place, and its handle isn't below `least`.
fn is_object_from(place: &Option<Object>, handle: u32, least: u32) -> bool
    ensures { result ≡ (is_some (option_map object_of place.now) && nat_le least handle) }
{
    place.is_some() && handle >= least
}

// The least number without an object.
fn least_free(places: &[Option<Object>]) -> usize
    ensures { result ≡ table.least_free (objects_of places.now) }
{
    for (number, place) in places.iter().enumerate() {
        if place.is_none() {
            return number;
        }
    }
    places.len()
}

// Puts an object under the least number without one, and gives this number. There is room for it.
pub(crate) fn put_least(places: &mut Vec<Option<Object>>, object: Object) -> usize
    requires room { vec_len places.old < vec_capacity places.old }
    requires few { table.is_full (objects_of places.old.items) ≡ false }
    requires most { length places.old.items ≤ CLIENT_OBJECTS }
    ensures items { objects_of places.new.items
        ≡ table.put_least (object_of object) (objects_of places.old.items) }
    ensures number { result ≡ table.least_free (objects_of places.old.items) }
    ensures below { result < CLIENT_OBJECTS }
    ensures most { length places.new.items ≤ CLIENT_OBJECTS }
{
    let number = least_free(places);
    if number < places.len() {
        places[number] = Some(object);
    } else {
        places.push(Some(object)).unwrap();
    }
    number
}

// Takes out the object under this handle.
pub(crate) fn take_out(places: &mut Vec<Option<Object>>, handle: u32)
    requires there { is_some (table.held_under (objects_of places.old.items) handle) ≡ true }
    ensures items { objects_of places.new.items
        ≡ table.without_handle (objects_of places.old.items) handle }
    ensures same { length places.new.items ≡ length places.old.items }
{
    let number = number_of(handle);
    if number < places.len() {
        places[number] = None;
    }
}
