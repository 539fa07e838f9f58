ghost use Rattle.std.specs.Prelude.{◌≡◌, vec_capacity};
ghost use Rattle.source_state.specs.State.{is_listed_in, numbers_without, are_in};

/// Whether the list has the buffer of a number.
pub(crate) fn is_listed_in(list: &Vec<u32>, k: u32) -> bool
    ensures { result ≡ is_listed_in k list.now.items }
{
    list.contains(&k)
}

/// Takes the buffer of a number off the list, and keeps its room.
pub(crate) fn remove_number(list: &mut Vec<u32>, k: u32)
    ensures items { list.new.items ≡ numbers_without k list.old.items }
    ensures capacity { vec_capacity list.new ≡ vec_capacity list.old }
{
    list.retain(|n| *n != k);
}

/// Whether every buffer of a list is in another.
pub(crate) fn are_in(list: &Vec<u32>, all: &Vec<u32>) -> bool
    ensures { result ≡ are_in list.now.items all.now.items }
{
    list.iter().all(|n| is_listed_in(all, *n))
}
