/// Why a schedule is not good. Loads and limits are in millionths.
#[derive(Clone, Copy, Debug, PartialEq, Eq)]
pub enum Breach {
    /// The block has a period, and its predecessor has none or a later one.
    Precedence {
        block: u32,
        before: u32,
    },
    /// The load of the resource in the period is above its limit.
    Over {
        resource: u32,
        period: u32,
        load: i128,
        limit: i64,
    },
}
