//! Lists of the vertices that have certain core numbers.
ghost use Rattle.std.specs.Prelude.{◌≡◌, ◌<◌, ◌^◌, OnOk, length, nat_eq, nat_le};
ghost use Rattle.kc_keeper.specs.Members.{places_where};

use kc_graph::NoMemory;

/// Makes a list of the places whose number is at least `k`, in ascending order.
pub(crate) fn list_at_least(k: u32, numbers: &[u32], places: &mut Vec<u32>) -> Result<(), NoMemory>
    requires { length numbers.now < 2 ^ 32 }
    ensures { OnOk result (places.new.items ≡ places_where (nat_le k) numbers.now (length numbers.now)) }
{
    places.clear();
    for (place, number) in numbers.iter().enumerate() {
        if *number >= k {
            places.push(place as u32)?;
        }
    }
    Ok(())
}

/// Makes a list of the places whose number is `k`, in ascending order.
pub(crate) fn list_equal(k: u32, numbers: &[u32], places: &mut Vec<u32>) -> Result<(), NoMemory>
    requires { length numbers.now < 2 ^ 32 }
    ensures { OnOk result (places.new.items ≡ places_where (nat_eq k) numbers.now (length numbers.now)) }
{
    places.clear();
    for (place, number) in numbers.iter().enumerate() {
        if k == *number {
            places.push(place as u32)?;
        }
    }
    Ok(())
}
