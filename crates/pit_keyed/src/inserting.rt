//! Inserts into maps that have room for a first key.
ghost use Rattle.std.specs.Prelude.{◌≡◌, ◌+◌, ◌≤◌, length, OnOk, OnErr};
ghost use Rattle.pit_keyed.specs.Keyed.{HasFirstRoom, IsFurther, with_each, with_write};

use indexmap::IndexMap;
use pit_num::NoMemory;
use std::alloc::Allocator;
use std::hash::{BuildHasher, Hash};

/// Writes a key with a value. A key that is there keeps its place. Takes memory where the map has others, and not this one.
pub fn insert<K: Eq + Hash + Copy, V: Copy, S: BuildHasher, A: Allocator>(
    map: &mut IndexMap<K, V, S, A>,
    key: K,
    value: V,
) -> Result<(), NoMemory>
    requires first { HasFirstRoom map.old }
    ensures ok { OnOk result (map.new.entries ≡ with_write K.eq map.old.entries key value) }
    ensures err { OnErr result (map.new.entries ≡ map.old.entries) }
    ensures memory { OnErr result (IsFurther K.eq map.old.entries key) }
    ensures kept { HasFirstRoom map.new }
{
    map.insert(key, value)?;
    Ok(())
}

/// Writes one key after another with a value: each of them, or none where memory runs out. Room for all is made first. A key that is there keeps its
/// place. Takes memory where there are two keys or more, those of the map counted too.
pub fn insert_each<K: Eq + Hash + Copy, V: Copy, S: BuildHasher, A: Allocator>(
    map: &mut IndexMap<K, V, S, A>,
    keys: &[K],
    value: V,
) -> Result<(), NoMemory>
    requires first { HasFirstRoom map.old }
    ensures ok { OnOk result (map.new.entries ≡ with_each K.eq map.old.entries keys.now value) }
    ensures err { OnErr result (map.new.entries ≡ map.old.entries) }
    ensures memory { OnErr result (2 ≤ length map.old.entries + length keys.now) }
    ensures kept { HasFirstRoom map.new }
{
    map.reserve(keys.len())?;
    for key in keys {
        map.insert(*key, value)?;
    }
    Ok(())
}
