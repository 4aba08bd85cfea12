//! In which list a task stands, by its owner and by the resource for which it waits.

ghost use Rattle.std.specs.Prelude.{◌≡◌, ◌<◌, ◌≤◌, length};
ghost use Rattle.id_lists.specs.Lists.{AreLists};
ghost use Rattle.fizz_task.specs.Indexed.{HasList, hash_from, moved, name_list, owner_list};

use crate::name::Name;
use fizz_text::Text;
use id_lists::IdLists;

/// Among so many lists, the one of an owner.
pub(crate) fn owner_list(owner: Option<u32>, count: u32) -> u32
    requires { 1 < count }
    ensures { result ≡ owner_list count owner }
{
    match owner {
        None => 0,
        Some(owner) => 1 + owner % (count - 1),
    }
}

/// A number for some bytes.
fn hash_of(bytes: &[u8]) -> u64
    ensures { result ≡ hash_from 0 bytes.now }
{
    let mut hash = 0u64;
    for byte in bytes {
        hash = (hash * 257 + *byte as u64) % 4_294_967_291;
    }
    hash
}

/// Among so many lists, the one of a name.
pub(crate) fn name_list(name: &Text, count: u32) -> u32
    requires { 1 < count }
    ensures { result ≡ name_list count name.now }
{
    (hash_of(name.as_bytes()) % count as u64) as u32
}

/// The same of the name for which a task waits.
pub(crate) fn waited_list(name: &Name, count: u32) -> u32
    requires { 1 < count }
    ensures { result ≡ name_list count name.now }
{
    (hash_of(name.as_bytes()) % count as u64) as u32
}

/// Takes an id out of its list, and makes it the last of this one.
pub(crate) fn move_to(lists: &mut IdLists, id: u32, list: Option<u32>)
    requires made { id < lists.old.ids }
    requires there { HasList list lists.old.lists }
    ensures moved { lists.new ≡ record lists.old { lists = moved list id lists.old.lists } }
    ensures lists { AreLists lists.new }
{
    lists.remove(id);
    if let Some(list) = list {
        lists.push(list, id);
    }
}
