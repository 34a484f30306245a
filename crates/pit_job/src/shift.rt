ghost use Rattle.std.specs.Prelude.{◌≡◌, ◌<◌, true, false, IfSome};
ghost use Rattle.pit_job.specs.Shifts.{shifted as shifted_of};

/// The period that lies so much later, or earlier where it goes back, if it is one.
pub fn shifted(periods: u32, is_back: bool, by: u32, t: u32) -> Option<u32>
    ensures period { result ≡ shifted_of periods is_back by t }
    ensures below { IfSome result (λ u. u < periods) }
{
    if is_back {
        return earlier(periods, by, t);
    }
    later(periods, by, t)
}

fn earlier(periods: u32, by: u32, t: u32) -> Option<u32>
    ensures period { result ≡ shifted_of periods true by t }
    ensures below { IfSome result (λ u. u < periods) }
{
    if by > t {
        return None;
    }
    let u = t - by;
    if u < periods { Some(u) } else { None }
}

fn later(periods: u32, by: u32, t: u32) -> Option<u32>
    ensures period { result ≡ shifted_of periods false by t }
    ensures below { IfSome result (λ u. u < periods) }
{
    if by >= periods {
        return None;
    }
    if t < periods - by { Some(t + by) } else { None }
}
