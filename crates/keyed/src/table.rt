//! The table.

ghost use Rattle.std.specs.Prelude.{◌≡◌, ◌≤◌, ◌&&◌, [], length, replicate, ◌==◌, nat_lt};
ghost use Rattle.std.specs.List.{slice_get, find};
ghost use Rattle.std.specs.Option.{option_map};
ghost use Rattle.keyed.specs.Found.{Found};
ghost use Rattle.std.proofs.Common.{rules};

use crate::key::{Key, Zero};

/// A row: a key and its value.
#[derive(Clone, Copy, PartialEq, Eq, Default, Debug)]
pub struct Entry<K, V> {
    pub key: K,
    pub value: V,
}

/// A table over lent rows, of which the first are in use.
// It has no model: the rows are lent, so contracts name all that they hold at the return, unused ones too, and these are the fields.
#[derive(Drop)]
pub struct Table<'r, K, V> {
    rows: &'r mut [Entry<K, V>],
    used: usize,
    ghost within: { used ≤ length rows.now },
}

/// All rows are in use.
#[derive(Clone, Copy, PartialEq, Eq, Debug)]
pub struct NoRow;

/// Sets every row to zeros.
pub fn clear_rows<K: Zero, V: Zero>(rows: &mut [Entry<K, V>])
    ensures zeros { rows.new ≡ replicate (length rows.old) (record { key = K.Zero.zero; value = V.Zero.zero }) }
{
    // A loop, so that each row is written where it stands: the closure of `fill_with` could not tell one from another.
    let none = Entry {
        key: K::zeroed(),
        value: V::zeroed(),
    };
    for row in rows.iter_mut() {
        *row = none;
    }
}

impl<'r, K: Key, V: Copy> Table<'r, K, V> {
    ghost use Rattle.keyed.specs.Rows.{find_key, has_key, table, memory, room, added, laid, next_place, updated, changed};

    /// An empty table over the rows, which may hold anything and stay as they are.
    pub fn new(rows: &'r mut [Entry<K, V>]) -> Table<'r, K, V>
        ensures empty { table result ≡ [] }
        ensures memory { memory result ≡ rows.old }
        ensures lender { result.rows.ghost_name ≡ rows.entry.ghost_name }
    {
        Table { rows, used: 0 }
    }

    /// The rows in use.
    pub fn live(&self) -> &[Entry<K, V>]
        ensures { result.now ≡ table self.now }
    {
        &self.rows[..self.used]
    }

    /// How many rows are in use.
    pub fn len(&self) -> usize
        ensures counts { result ≡ length (table self.now) }
    {
        self.live().len()
    }

    /// The row at an index, or none behind the last one in use.
    pub fn row(&self, i: usize) -> Option<Entry<K, V>>
        ensures row { result ≡ slice_get (table self.now) i }
    {
        self.live().get(i).copied()
    }

    /// The place of the first row with the key.
    pub fn find(&self, key: K) -> Option<usize>
        ensures place { result ≡ find_key K.Key.same key (table self.now) }
        ensures found { Found key (table self.now) result }
    {
        self.live().iter().position(|row| row.key.is(&key))
    }

    /// The value of the first row with the key.
    pub fn get(&self, key: K) -> Option<V>
        ensures value { result ≡ option_map (λ row. row.value) (find (has_key K.Key.same key) (table self.now)) }
    {
        self.live()
            .iter()
            .find(|row| row.key.is(&key))
            .map(|row| row.value)
    }

    /// One row more, at the end, and its place; or a refusal where all rows are in use.
    pub fn insert(&mut self, key: K, value: V) -> Result<usize, NoRow>
        ensures answer { result ≡ next_place (room self.old) (table self.old) }
        ensures rows { table self.new ≡ added (room self.old) (table self.old) (record { key = key; value = value }) }
        ensures memory { memory self.new ≡ laid (memory self.old) (length (table self.old)) (record { key = key; value = value }) }
        ensures lender { self.new.rows.ghost_name ≡ self.old.rows.ghost_name }
    {
        // By index: with `get_mut(used).ok_or(NoRow)?` it stayed open that a refusal leaves the rows as they were.
        let used = self.used;
        if used >= self.rows.len() {
            return Err(NoRow);
        }
        self.rows[used] = Entry { key, value };
        self.used = used + 1;
        Ok(used)
    }

    /// Sets the value of a row in use, and answers whether there is such a row.
    // A `bool`, since a missing row is the one refusal and there is nothing to hand back: `Option<()>` would say the same.
    pub fn update(&mut self, i: usize, value: V) -> bool
        ensures answer { result ≡ nat_lt i (length (table self.old)) }
        ensures rows { table self.new ≡ updated (table self.old) i value }
        ensures memory { memory self.new ≡ changed (memory self.old) (length (table self.old)) i value }
        ensures lender { self.new.rows.ghost_name ≡ self.old.rows.ghost_name }
    {
        if i >= self.used {
            return false;
        }
        self.rows[i].value = value;
        true
    }
}

impl<'r, K: Zero, V: Zero> Table<'r, K, V> {
    ghost use Rattle.keyed.specs.Rows.{table, memory, room};

    /// Lets all rows go and sets them to zeros.
    pub fn clear(&mut self)
        ensures empty { table self.new ≡ [] }
        ensures zeros { memory self.new ≡ replicate (room self.old) (record { key = K.Zero.zero; value = V.Zero.zero }) }
        ensures lender { self.new.rows.ghost_name ≡ self.old.rows.ghost_name }
    {
        self.used = 0;
        clear_rows(self.rows);
    }
}

#[cfg(test)]
mod tests {
    use super::*;

    #[derive(Clone, Copy, PartialEq, Eq, Default, Debug)]
    struct Pair {
        layer: u64,
        datatype: u64,
    }

    impl Key for Pair {
        ghost same = { ⟦<Pair as PartialEq>⟧.eq };

        ghost decides = { Prim.search rules };

        fn is(&self, other: &Pair) -> bool {
            self == other
        }
    }

    impl Zero for Pair {
        ghost zero = { record { layer = 0; datatype = 0 } };

        fn zeroed() -> Pair {
            Pair::default()
        }
    }

    impl Zero for u8 {
        ghost zero = { 0 };

        fn zeroed() -> u8 {
            u8::default()
        }
    }

    // Two issues of a sheet compare as equal, and are two keys.
    #[derive(Clone, Copy)]
    #[derive_where(PartialEq, Eq)]
    struct Sheet {
        number: u64,
        #[derive_where(skip(EqHashOrd))]
        issue: u64,
    }

    impl Key for Sheet {
        ghost same = { λ a b. (a.number == b.number) && a.issue == b.issue };

        ghost decides = { Prim.search rules };

        fn is(&self, other: &Sheet) -> bool {
            self.number == other.number && self.issue == other.issue
        }
    }

    impl Zero for Sheet {
        ghost zero = { record { number = 0; issue = 0 } };

        fn zeroed() -> Sheet {
            Sheet {
                number: 0,
                issue: 0,
            }
        }
    }

    // A scale is of 100 percent by default, and has no `==`.
    #[derive(Clone, Copy)]
    struct Scale {
        percent: u64,
    }

    impl Default for Scale {
        ghost is_default = { λ scale. scale.percent ≡ 100 };

        fn default() -> Scale {
            Scale { percent: 100 }
        }
    }

    impl Zero for Scale {
        ghost zero = { record { percent = 0 } };

        fn zeroed() -> Scale {
            Scale { percent: 0 }
        }
    }

    fn of(layer: u64, datatype: u64) -> Pair {
        Pair { layer, datatype }
    }

    #[test]
    fn keeps_the_order_of_coming(rt: HostRuntime) {
        let mut rows = [Entry {
            key: of(9, 9),
            value: 7u8,
        }; 3];
        let mut table = Table::new(&mut rows);
        assert_eq!(rt; table.len(), 0);
        assert!(rt; table.get(of(9, 9)).is_none());
        assert!(rt; table.insert(of(3, 0), 10).is_ok());
        assert!(rt; table.insert(of(1, 0), 11).is_ok());
        assert_eq!(rt; table.find(of(1, 0)), Some(1));
        assert_eq!(rt; table.get(of(3, 0)), Some(10));
        assert_eq!(rt; table.get(of(3, 1)), None);
        assert!(rt; table.update(1, 12));
        assert!(rt; !table.update(2, 13));
        assert_eq!(rt; table.get(of(1, 0)), Some(12));
        assert!(rt; table.row(2).is_none());
        assert!(rt; table.insert(of(0, 0), 14).is_ok());
        assert!(rt; table.insert(of(4, 4), 15).is_err());
        assert_eq!(rt; table.len(), 3);
        table.clear();
        assert_eq!(rt; table.len(), 0);
        assert!(rt; table.get(of(0, 0)).is_none());
    }

    #[test]
    fn asks_for_no_equality_and_no_default(rt: HostRuntime) {
        let sheet = |issue| Sheet { number: 5, issue };
        let mut rows = [Entry {
            key: sheet(9),
            value: Scale::default(),
        }; 2];
        let mut table = Table::new(&mut rows);
        assert!(rt; table.insert(sheet(1), Scale { percent: 50 }).is_ok());
        assert!(rt; table.insert(sheet(2), Scale::default()).is_ok());
        assert!(rt; sheet(1) == sheet(2));
        assert_eq!(rt; table.find(sheet(2)), Some(1));
        assert_eq!(rt; table.get(sheet(2)).map(|scale| scale.percent), Some(100));
        assert!(rt; table.find(sheet(3)).is_none());
        table.clear();
        assert!(rt; table.find(sheet(1)).is_none());
        for row in &rows {
            assert_eq!(rt; row.key.number, 0);
            assert_eq!(rt; row.key.issue, 0);
            assert_eq!(rt; row.value.percent, 0);
        }
    }
}
