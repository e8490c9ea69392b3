//! An index of locks, by their tokens and by their keys.
ghost use Rattle.std.specs.Prelude.{◌≡◌, ℕ, [], false, MatchOption, OnOk, OnErr};
ghost use Rattle.std.specs.HashMap.{get_by_text};
ghost use Rattle.std.specs.Option.{option_copied};
ghost use Rattle.std.specs.Rc.{rc_str_bytes};
ghost use Rattle.dav_key.specs.Key.{Key};
ghost use Rattle.dav_key.specs.Flat.{segments_of, IsFlatText};
ghost use Rattle.dav_memls.specs.Numbers.{IsAbove};
ghost use Rattle.dav_memls.specs.KeyEntries.{listed};
ghost use Rattle.dav_memls.specs.ByKey.{HasRun};
ghost use Rattle.dav_memls.specs.Expiries.{is_due, is_time, IsFirst};
ghost use Rattle.dav_memls.specs.LockIndex.{IsIndexed, by_token, register_of, found_at, KeepsIndex, EntersIndex, IsPartlyEntered, LeavesIndex, MovesInIndex};

use super::by_key::ByKey;
use super::expiries::Expiries;
use super::key_text;
use super::numbers::Numbers;
use dav_store::DavLock;
use std::alloc::{AllocError, Global};
use std::collections::HashMap;
use std::collections::btree_map::Range;
use std::rc::RcStr;

/// Which locks a register of an index contains.
#[derive(Clone, Copy, Debug)]
pub enum Register {
    /// All locks.
    All,
    /// The deep locks (Depth infinity).
    Deep,
    /// The exclusive locks.
    Exclusive,
}

/// An index that finds the numbers of locks: by token, by a lock's own key in a register of all locks, of the
/// deep ones or of the exclusive ones, and by the time when a lock expires.
#[derive(Debug, Drop)]
pub struct LockIndex {
    tokens: HashMap<String, u64>,
    all: ByKey,
    deep: ByKey,
    exclusive: ByKey,
    expiries: Expiries,
}

impl LockIndex {
    /// Creates an index without locks.
    pub fn new(alloc: Global) -> LockIndex
        ensures { IsIndexed result [] }
    {
        LockIndex {
            tokens: HashMap::new(alloc),
            all: ByKey::new(alloc),
            deep: ByKey::new(alloc),
            exclusive: ByKey::new(alloc),
            expiries: Expiries::new(alloc),
        }
    }

    /// Returns the number of the lock with this token.
    pub fn number(&self, token: &str) -> Option<u64>
        ensures { result ≡ get_by_text self.now.tokens token.now }
    {
        self.tokens.get(token).copied()
    }

    /// Returns the numbers of the register's locks whose own key has this text, the oldest first.
    pub fn at(&self, register: Register, key: &str) -> Option<&Numbers>
        requires { IsFlatText key.now }
        ensures { listed (option_copied result) ≡ found_at self.now register (segments_of key.now) }
    {
        self.register(register).get(key)
    }

    /// Returns the numbers of the register's locks by the texts of their own keys, from the key with this text
    /// on, in the order of the keys. Those of all keys at or below this one are the first of them.
    pub fn run(&self, register: Register, key: &RcStr) -> Range<'_, RcStr, Numbers>
        requires { IsFlatText (rc_str_bytes key.now) }
        ensures { HasRun (segments_of (rc_str_bytes key.now)) (register_of self.now register) result }
    {
        self.register(register).run(key)
    }

    /// Returns the earliest time at which a lock expires, and the number of such a lock.
    pub fn first_expiry(&self) -> Option<(u64, u64)>
        ensures { MatchOption result ((time n : ℕ) → is_due self.now.expiries time n ≡ false) (IsFirst self.now.expiries) }
    {
        self.expiries.first()
    }

    fn register(&self, register: Register) -> &ByKey
        ensures { result.now ≡ register_of self.now register }
    {
        match register {
            Register::All => &self.all,
            Register::Deep => &self.deep,
            Register::Exclusive => &self.exclusive,
        }
    }

    /// Adds a lock under this number, which must be greater than all numbers in the index. Its token must not
    /// be in use. Fails only if memory runs out, and then nothing changes.
    pub fn enter(&mut self, alloc: Global, lock: &DavLock, number: u64) -> Result<(), AllocError>
        requires token { by_token self.old lock.now.token ≡ [] }
        requires above { (register : Register) (key : Key) → IsAbove number (found_at self.old register key) }
        requires unused { (time : ℕ) → is_due self.old.expiries time number ≡ false }
        ensures ok { OnOk result (EntersIndex lock.now number self.old self.new) }
        ensures err { OnErr result (KeepsIndex self.old self.new) }
    {
        let entered = self.try_enter(alloc, lock, number);
        if entered.is_err() {
            self.leave(lock, number);
        }
        entered
    }

    /// Adds a lock under this number, as `enter` does. The registers share the text of its key. If memory runs out,
    /// the registers may keep the number.
    fn try_enter(&mut self, alloc: Global, lock: &DavLock, number: u64) -> Result<(), AllocError>
        requires token { by_token self.old lock.now.token ≡ [] }
        requires above { (register : Register) (key : Key) → IsAbove number (found_at self.old register key) }
        requires unused { (time : ℕ) → is_due self.old.expiries time number ≡ false }
        ensures ok { OnOk result (EntersIndex lock.now number self.old self.new) }
        ensures err { OnErr result (IsPartlyEntered lock.now number self.old self.new) }
    {
        let token = String::from_str(alloc, lock.token.as_str())?;
        let key = key_text::shared(&lock.path);
        self.all.join(alloc, key, number)?;
        self.deep.join_if(lock.deep, alloc, key, number)?;
        self.exclusive.join_if(!lock.shared, alloc, key, number)?;
        self.expiries.insert(lock.timeout_at, number)?;
        self.tokens.insert(token, number)?;
        Ok(())
    }

    /// Removes a lock and its number from the index.
    pub fn leave(&mut self, lock: &DavLock, number: u64)
        ensures { LeavesIndex lock.now number self.old self.new }
    {
        let key = key_text::shared(&lock.path);
        self.tokens.remove(lock.token.as_str());
        self.all.leave(key, number);
        self.deep.leave_if(lock.deep, key, number);
        self.exclusive.leave_if(!lock.shared, key, number);
        self.expiries.remove(lock.timeout_at, number);
    }

    /// Enters another time, or none, at which the lock of a number expires. Its time so far must be `old`.
    /// Fails only if memory runs out, and then nothing changes.
    pub fn refresh(
        &mut self,
        number: u64,
        old: Option<u64>,
        new: Option<u64>,
    ) -> Result<(), AllocError>
        requires { (time : ℕ) → is_due self.old.expiries time number ≡ is_time old time }
        ensures ok { OnOk result (MovesInIndex new number self.old self.new) }
        ensures err { OnErr result (KeepsIndex self.old self.new) }
    {
        self.expiries.change(number, old, new)
    }
}
