//! Ordered lists of numbered entries, of which several queues may share one set.

ghost use Rattle.std.specs.Prelude.{◌≡◌, ℕ, ◌+◌, ◌^◌, ◌<◌, length, Option, Some, IfSome};
ghost use Rattle.sched_base.specs.KeyedList.{KeyedRoots, root_at, inserted_into, deleted_from, AreKeyed, StandsIn, IsPlaced, IsFree, first_entry, next_entry, entry_from, key_of_entry};

/// Several ordered lists, one for each root, over the entries from 0 on. A list is ordered by key
/// as an unsigned number, and among equal keys by arrival. An entry stands in one root at most
/// (docs/MODEL.md, "Keyed lists"). No call takes memory.
pub trait KeyedLists {
    /// All lists, how many insertions were made into each, and the number of entries.
    ghost seen: { Self → KeyedRoots };

    /// Keys never fall along a list, and an entry stands at most once, in one root at most. So it is
    /// at any time: the call does nothing, and its contract is the law.
    fn stay_keyed(&self)
        ensures { AreKeyed (seen self.now) };

    /// Puts an entry into a root, behind all items of at most its key.
    fn insert(&mut self, root: u32, entry: u32, key: u32)
        requires root_exists { root < length (seen self.old).roots }
        requires entry_exists { entry < (seen self.old).entries }
        requires free { IsFree entry (seen self.old) }
        requires room { (root_at root (seen self.old)).insertions + 1 < 2 ^ 63 }
        ensures { seen self.new ≡ inserted_into root entry key (seen self.old) };

    /// Takes an entry out of its root.
    fn delete(&mut self, entry: u32)
        requires { IsPlaced entry (seen self.old) }
        ensures { (root : ℕ) → StandsIn root entry (seen self.old) → seen self.new ≡ deleted_from root entry (seen self.old) };

    /// The first entry of a root; none where its list is empty.
    fn first(&self, root: u32) -> Option<u32>
        requires { root < length (seen self.now).roots }
        ensures { result ≡ first_entry (root_at root (seen self.now)).items };

    /// The entry that follows in the list of this one; none where it is the last.
    fn next(&self, entry: u32) -> Option<u32>
        requires { IsPlaced entry (seen self.now) }
        ensures { (root : ℕ) → StandsIn root entry (seen self.now) → result ≡ next_entry entry (root_at root (seen self.now)).items };

    /// The first entry of a root whose key is at least this one; none where there is none.
    fn lookup_ge(&self, root: u32, key: u32) -> Option<u32>
        requires { root < length (seen self.now).roots }
        ensures { result ≡ entry_from key (root_at root (seen self.now)).items };

    /// The root in which an entry stands; none where it stands in none.
    fn root_of(&self, entry: u32) -> Option<u32>
        ensures found { IfSome result (λ root. StandsIn root entry (seen self.now)) }
        ensures one { (root : ℕ) → StandsIn root entry (seen self.now) → result ≡ Some root };

    /// The key under which an entry stands.
    fn key_of(&self, entry: u32) -> u32
        requires { IsPlaced entry (seen self.now) }
        ensures { (root : ℕ) → StandsIn root entry (seen self.now) → key_of_entry entry (root_at root (seen self.now)).items ≡ Some result };
}
