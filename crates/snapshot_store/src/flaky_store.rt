//! A store that fails by plan.

ghost use Rattle.std.specs.Prelude.{◌≡◌, ◌+◌, None, Some, replicate, slice_set};
ghost use Rattle.snapshot_store.specs.Calls.{call_number};

use crate::store::{SnapshotStore, StoreFault};
use bytes::Bytes;
use fault_plan::{Plan, When};

/// How many kinds of call may fail.
const CALLS: usize = 6;

/// The calls of a store that may fail.
#[derive(Clone, Copy, Debug, PartialEq, Eq)]
pub enum StoreCall {
    Reserve,
    Put,
    Complete,
    Latest,
    Get,
    DiscardBelow,
}

impl StoreCall {
    fn number(self) -> usize
        ensures { result ≡ call_number self }
    {
        match self {
            StoreCall::Reserve => 0,
            StoreCall::Put => 1,
            StoreCall::Complete => 2,
            StoreCall::Latest => 3,
            StoreCall::Get => 4,
            StoreCall::DiscardBelow => 5,
        }
    }
}

/// A store that never fails by itself.
pub trait FaultlessStore: SnapshotStore {
    ghost faultless: { (store : Self) → Self.fault_count store ≡ 0 };
}

/// A store whose calls fail by plan, before their work or after it.
#[derive(Drop)]
pub struct FlakyStore<S: FaultlessStore> {
    store: S,
    plan: Plan<CALLS>,
}

impl<S: FaultlessStore> FlakyStore<S> {
    ghost use Rattle.snapshot_store.specs.FlakyStore.{plan_of, store_of};

    /// No call is to fail.
    pub fn new(store: S) -> FlakyStore<S>
        ensures store { store_of result ≡ store }
        ensures plan { plan_of result ≡ record {
          next = replicate CALLS None;
          every = None;
          calls = 0;
          faults = 0;
        } }
    {
        FlakyStore {
            store,
            plan: Plan::new(),
        }
    }

    /// The next call of the kind fails.
    pub fn arm(&mut self, call: StoreCall, when: When)
        ensures store { store_of self.new ≡ store_of self.old }
        ensures plan { plan_of self.new ≡ record (plan_of self.old) {
          next = slice_set
              (plan_of self.old).next (call_number call) (Some when);
        } }
    {
        self.plan.arm(call.number(), when);
    }

    /// Each k-th call that may fail does so before its work, up to the last-th. Calls are counted
    /// from the first on. None fails for a k of 0.
    pub fn every(&mut self, k: u64, last: u64)
        ensures store { store_of self.new ≡ store_of self.old }
        ensures plan { plan_of self.new ≡ record (plan_of self.old) { every = Some (k, last) } }
    {
        self.plan.every(k, last);
    }

    /// The store, which fails no more.
    pub fn into_inner(self) -> S
        ensures { result ≡ store_of self }
    {
        let FlakyStore { store, plan: _ } = self;
        store
    }
}

impl<S: FaultlessStore> SnapshotStore for FlakyStore<S> {
    ghost state = { λ f. S.state f.store };

    ghost fault_count = { λ f. f.plan.faults + S.fault_count f.store };

    ghost numbered = { λ f. S.numbered f.store };

    fn is_new(&self) -> bool {
        self.store.is_new()
    }

    fn tasks(&self) -> u32 {
        self.store.tasks()
    }

    fn reserve(&mut self) -> Result<u64, StoreFault> {
        match self.plan.due(StoreCall::Reserve.number()) {
            Some(When::Before) => Err(StoreFault::Fault),
            Some(When::After) => {
                let _ = self.store.reserve();
                Err(StoreFault::Fault)
            }
            None => self.store.reserve(),
        }
    }

    fn put(&mut self, number: u64, task: u32, bytes: &[u8]) -> Result<(), StoreFault> {
        match self.plan.due(StoreCall::Put.number()) {
            Some(When::Before) => Err(StoreFault::Fault),
            Some(When::After) => {
                let _ = self.store.put(number, task, bytes);
                Err(StoreFault::Fault)
            }
            None => self.store.put(number, task, bytes),
        }
    }

    fn put_shared(&mut self, number: u64, task: u32, bytes: Bytes) -> Result<(), StoreFault> {
        match self.plan.due(StoreCall::Put.number()) {
            Some(When::Before) => Err(StoreFault::Fault),
            Some(When::After) => {
                let _ = self.store.put_shared(number, task, bytes);
                Err(StoreFault::Fault)
            }
            None => self.store.put_shared(number, task, bytes),
        }
    }

    fn complete(&mut self, number: u64) -> Result<(), StoreFault> {
        match self.plan.due(StoreCall::Complete.number()) {
            Some(When::Before) => Err(StoreFault::Fault),
            Some(When::After) => {
                let _ = self.store.complete(number);
                Err(StoreFault::Fault)
            }
            None => self.store.complete(number),
        }
    }

    fn latest(&mut self) -> Result<Option<u64>, StoreFault> {
        match self.plan.due(StoreCall::Latest.number()) {
            Some(When::Before) => Err(StoreFault::Fault),
            Some(When::After) => {
                let _ = self.store.latest();
                Err(StoreFault::Fault)
            }
            None => self.store.latest(),
        }
    }

    fn get(&mut self, number: u64, task: u32) -> Result<Vec<u8>, StoreFault> {
        match self.plan.due(StoreCall::Get.number()) {
            Some(When::Before) => Err(StoreFault::Fault),
            Some(When::After) => {
                let _ = self.store.get(number, task);
                Err(StoreFault::Fault)
            }
            None => self.store.get(number, task),
        }
    }

    fn discard_below(&mut self, number: u64) -> Result<(), StoreFault> {
        match self.plan.due(StoreCall::DiscardBelow.number()) {
            Some(When::Before) => Err(StoreFault::Fault),
            Some(When::After) => {
                let _ = self.store.discard_below(number);
                Err(StoreFault::Fault)
            }
            None => self.store.discard_below(number),
        }
    }

    fn faults(&self) -> u64 {
        self.plan.faults()
    }
}
