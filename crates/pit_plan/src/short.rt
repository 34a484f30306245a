/// A load that is below its lower limit, both in millionths.
#[derive(Clone, Copy, Debug, PartialEq, Eq)]
pub struct Short {
    /// The resource, numbered from 0.
    pub resource: u32,
    /// The period, numbered from 0.
    pub period: u32,
    /// The load of the resource in the period, in millionths.
    pub load: i128,
    /// Its greatest lower limit there, in millionths.
    pub limit: i64,
}
