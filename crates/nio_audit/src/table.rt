//! Values by numbers, where most numbers have the same value.
ghost use Rattle.std.specs.Fn.{FnOnceReturnsAtMut};
ghost use Rattle.std.specs.Prelude.{◌≡◌, OnOk, if◌then◌else◌};

use std::alloc::{AllocError, Global};
use std::collections::HashMap;
use std::hash::Hash;

/// A value for each key: `rest` for each key at which no other value was set.
#[derive(Drop)]
struct Table<K: Eq + Hash + Copy, V: Copy> {
    rest: V,
    set: HashMap<K, V>,
}

impl<K: Eq + Hash + Copy, V: Copy> Table<K, V> {
    ghost use Rattle.nio_audit.specs.TableWords.{value_at};

    fn new(alloc: Global, rest: V) -> Self
        ensures { (q : K) → value_at K.eq result q ≡ rest }
    {
        Table {
            rest,
            set: HashMap::new(alloc),
        }
    }

    fn get(&self, key: K) -> V
        ensures { result ≡ value_at K.eq self.now key }
    {
        self.set.get(&key).copied().unwrap_or(self.rest)
    }

    fn set(&mut self, key: K, value: V) -> Result<(), AllocError>
        ensures { OnOk result ((q : K) → value_at K.eq self.new q
            ≡ (if K.eq q key then value else value_at K.eq self.old q)) }
    {
        self.set.insert(key, value)?;
        Ok(())
    }
}

/// A value by a number.
#[derive(Drop)]
pub(crate) struct Row<V: Copy>(Table<u32, V>);

impl<V: Copy> Row<V> {
    ghost use Rattle.nio_history.specs.State.{put};
    ghost use Rattle.nio_audit.specs.TableWords.{row};

    pub(crate) fn new(alloc: Global, rest: V) -> Self
        ensures { row result ≡ (λ _. rest) }
    {
        Row(Table::new(alloc, rest))
    }

    pub(crate) fn get(&self, n: u32) -> V
        ensures { result ≡ row self.now n }
    {
        self.0.get(n)
    }

    pub(crate) fn set(&mut self, n: u32, value: V) -> Result<(), AllocError>
        ensures { OnOk result (row self.new ≡ put (row self.old) n value) }
    {
        self.0.set(n, value)
    }

    /// Changes the value by `change`.
    pub(crate) fn update<F: FnOnce(&mut V)>(&mut self, n: u32, change: F) -> Result<(), AllocError>
        requires { F.IsAlwaysCallable change }
        ensures { (value : V) × FnOnceReturnsAtMut F.FnOnce change (row self.old n) tt value
            × OnOk result (row self.new ≡ put (row self.old) n value) }
    {
        let mut value = self.get(n);
        change(&mut value);
        self.set(n, value)
    }
}

/// A value by two numbers.
#[derive(Drop)]
pub(crate) struct Grid<V: Copy>(Table<(u32, u32), V>);

impl<V: Copy> Grid<V> {
    ghost use Rattle.nio_history.specs.State.{put_at};
    ghost use Rattle.nio_audit.specs.TableWords.{grid};

    pub(crate) fn new(alloc: Global, rest: V) -> Self
        ensures { grid result ≡ (λ _ _. rest) }
    {
        Grid(Table::new(alloc, rest))
    }

    pub(crate) fn get(&self, m: u32, n: u32) -> V
        ensures { result ≡ grid self.now m n }
    {
        self.0.get((m, n))
    }

    pub(crate) fn set(&mut self, m: u32, n: u32, value: V) -> Result<(), AllocError>
        ensures { OnOk result (grid self.new ≡ put_at (grid self.old) m n value) }
    {
        self.0.set((m, n), value)
    }

    /// Changes the value by `change`.
    pub(crate) fn update<F: FnOnce(&mut V)>(
        &mut self,
        m: u32,
        n: u32,
        change: F,
    ) -> Result<(), AllocError>
        requires { F.IsAlwaysCallable change }
        ensures { (value : V) × FnOnceReturnsAtMut F.FnOnce change (grid self.old m n) tt value
            × OnOk result (grid self.new ≡ put_at (grid self.old) m n value) }
    {
        let mut value = self.get(m, n);
        change(&mut value);
        self.set(m, n, value)
    }
}

/// A value by three numbers.
#[derive(Drop)]
pub(crate) struct Cube<V: Copy>(Table<(u32, u32, u32), V>);

impl<V: Copy> Cube<V> {
    ghost use Rattle.nio_audit.specs.TableWords.{cube, put_at_three};

    pub(crate) fn new(alloc: Global, rest: V) -> Self
        ensures { cube result ≡ (λ _ _ _. rest) }
    {
        Cube(Table::new(alloc, rest))
    }

    pub(crate) fn get(&self, m: u32, n: u32, o: u32) -> V
        ensures { result ≡ cube self.now m n o }
    {
        self.0.get((m, n, o))
    }

    pub(crate) fn set(&mut self, m: u32, n: u32, o: u32, value: V) -> Result<(), AllocError>
        ensures { OnOk result (cube self.new ≡ put_at_three (cube self.old) m n o value) }
    {
        self.0.set((m, n, o), value)
    }

    /// Changes the value by `change`.
    pub(crate) fn update<F: FnOnce(&mut V)>(
        &mut self,
        m: u32,
        n: u32,
        o: u32,
        change: F,
    ) -> Result<(), AllocError>
        requires { F.IsAlwaysCallable change }
        ensures { (value : V) × FnOnceReturnsAtMut F.FnOnce change (cube self.old m n o) tt value
            × OnOk result (cube self.new ≡ put_at_three (cube self.old) m n o value) }
    {
        let mut value = self.get(m, n, o);
        change(&mut value);
        self.set(m, n, o, value)
    }
}
