//! Transactions that fail by plan.

ghost use Rattle.std.specs.Prelude.{◌≡◌, ◌+◌, if◌then◌else◌, is_some, None, Some, Err, replicate, slice_set};
ghost use Rattle.commit_sink.specs.Calls.{call_number};

use crate::transactions::{TransactionFault, Transactions};
use abs_codec::Bytes;
use fault_plan::{Plan, When};

/// How many kinds of call may fail.
const CALLS: usize = 6;

/// The calls of transactions that may fail.
#[derive(Clone, Copy, Debug, PartialEq, Eq)]
pub enum TransactionCall {
    Begin,
    Append,
    PreCommit,
    Commit,
    Abort,
    Unsettled,
}

impl TransactionCall {
    fn number(self) -> usize
        ensures { result ≡ call_number self }
    {
        match self {
            TransactionCall::Begin => 0,
            TransactionCall::Append => 1,
            TransactionCall::PreCommit => 2,
            TransactionCall::Commit => 3,
            TransactionCall::Abort => 4,
            TransactionCall::Unsettled => 5,
        }
    }
}

/// Transactions that never fail by themselves.
pub trait FaultlessTransactions: Transactions {
    ghost faultless: { (transactions : Self) → Self.fault_count transactions ≡ 0 };
}

/// Transactions whose calls fail by plan, before their work or after it.
#[derive(Drop)]
pub struct FlakyTransactions<X: FaultlessTransactions> {
    transactions: X,
    plan: Plan<CALLS>,
}

impl<X: FaultlessTransactions> FlakyTransactions<X> {
    ghost use Rattle.commit_sink.specs.FlakyTransactions.{plan_of, transactions_of};

    /// No call is to fail.
    pub fn new(transactions: X) -> FlakyTransactions<X>
        ensures transactions { transactions_of result ≡ transactions }
        ensures plan { plan_of result ≡ record {
          next = replicate CALLS None;
          every = None;
          calls = 0;
          faults = 0;
        } }
    {
        FlakyTransactions {
            transactions,
            plan: Plan::new(),
        }
    }

    /// The next call of the kind fails.
    pub fn arm(&mut self, call: TransactionCall, when: When)
        ensures transactions { transactions_of self.new ≡ transactions_of self.old }
        ensures plan { plan_of self.new ≡ record (plan_of self.old) {
          next = slice_set
              (plan_of self.old).next (call_number call) (Some when);
        } }
    {
        self.plan.arm(call.number(), when);
    }

    /// Each k-th call that may fail does so before its work, up to the last-th. Calls are counted
    /// from the first on. None fails for a k of 0.
    pub fn every(&mut self, k: u64, last: u64)
        ensures transactions { transactions_of self.new ≡ transactions_of self.old }
        ensures plan { plan_of self.new ≡ record (plan_of self.old) { every = Some (k, last) } }
    {
        self.plan.every(k, last);
    }

    /// The transactions, which fail no more.
    pub fn into_inner(self) -> X
        ensures { result ≡ transactions_of self }
    {
        let FlakyTransactions {
            transactions,
            plan: _,
        } = self;
        transactions
    }
}

/// What a call answers that was not to fail before its work: a fault, if it is to fail after it.
fn told<T: Drop>(
    due: Option<When>,
    answer: Result<T, TransactionFault>,
) -> Result<T, TransactionFault>
    ensures { result ≡ (if is_some due then Err TransactionFault.Fault else answer) }
{
    match due {
        Some(_) => Err(TransactionFault::Fault),
        None => answer,
    }
}

impl<X: FaultlessTransactions> Transactions for FlakyTransactions<X> {
    ghost state = { λ f. X.state f.transactions };

    ghost fault_count = { λ f. f.plan.faults + X.fault_count f.transactions };

    ghost ordered = { λ f. X.ordered f.transactions };

    fn is_new(&self) -> bool {
        self.transactions.is_new()
    }

    fn subtasks(&self) -> u32 {
        self.transactions.subtasks()
    }

    fn begin(&mut self, subtask: u32) -> Result<u64, TransactionFault> {
        let due = self.plan.due(TransactionCall::Begin.number());
        if due == Some(When::Before) {
            return Err(TransactionFault::Fault);
        }
        told(due, self.transactions.begin(subtask))
    }

    fn append(&mut self, transaction: u64, bytes: Vec<u8>) -> Result<(), TransactionFault> {
        let due = self.plan.due(TransactionCall::Append.number());
        if due == Some(When::Before) {
            return Err(TransactionFault::Fault);
        }
        told(due, self.transactions.append(transaction, bytes))
    }

    fn pre_commit(&mut self, transaction: u64, checkpoint: u64) -> Result<(), TransactionFault> {
        let due = self.plan.due(TransactionCall::PreCommit.number());
        if due == Some(When::Before) {
            return Err(TransactionFault::Fault);
        }
        told(due, self.transactions.pre_commit(transaction, checkpoint))
    }

    fn commit(&mut self, transaction: u64) -> Result<(), TransactionFault> {
        let due = self.plan.due(TransactionCall::Commit.number());
        if due == Some(When::Before) {
            return Err(TransactionFault::Fault);
        }
        told(due, self.transactions.commit(transaction))
    }

    fn abort(&mut self, transaction: u64) -> Result<(), TransactionFault> {
        let due = self.plan.due(TransactionCall::Abort.number());
        if due == Some(When::Before) {
            return Err(TransactionFault::Fault);
        }
        told(due, self.transactions.abort(transaction))
    }

    fn unsettled(&mut self, subtask: u32) -> Result<Vec<(u64, Option<u64>)>, TransactionFault> {
        let due = self.plan.due(TransactionCall::Unsettled.number());
        if due == Some(When::Before) {
            return Err(TransactionFault::Fault);
        }
        told(due, self.transactions.unsettled(subtask))
    }

    fn committed_len(&self, subtask: u32) -> u64 {
        self.transactions.committed_len(subtask)
    }

    fn committed(&self, subtask: u32, index: u64) -> Result<Option<Vec<u8>>, TransactionFault> {
        self.transactions.committed(subtask, index)
    }

    fn committed_from(&self, subtask: u32, index: u64) -> &[Bytes] {
        self.transactions.committed_from(subtask, index)
    }

    fn faults(&self) -> u64 {
        self.plan.faults()
    }
}
