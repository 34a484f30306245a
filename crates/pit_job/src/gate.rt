/// Is told of each commit of a transaction, before it and after it: of tries that are repeated too, and not of jobs that are aborted.
pub trait Gate: Sync {
    /// Before a try commits, without the lock.
    fn before_commit(&self, planner: u32, job: u32);

    /// Once that try was answered or stopped.
    fn after_commit(&self, planner: u32, job: u32);
}

/// The gate that does nothing.
pub struct Open;

impl Gate for Open {
    fn before_commit(&self, _planner: u32, _job: u32) {}

    fn after_commit(&self, _planner: u32, _job: u32) {}
}
