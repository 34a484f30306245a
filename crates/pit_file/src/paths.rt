//! Where a history's path leads.
ghost use Rattle.std.specs.Prelude.{◌≡◌, ◌≢◌, ℕ, List, Option, IfOk, IfSome, IfErr, OnErr};
ghost use Rattle.std.specs.String.{string_bytes};
ghost use Rattle.pit_file.specs.Found.{IsPlaceOf, HasName, IsLost, IsLostLink};
ghost use Rattle.pit_file.specs.declared.paths.Kind.{Kind};

use super::fault::FileFault;
use pit_num::Failed;

/// What stands at a path.
#[derive(Clone, Copy, Debug, PartialEq, Eq)]
pub enum Kind {
    /// Nothing.
    Nothing,
    /// A regular file.
    Regular,
    /// A pipe, a terminal, a folder or anything else; where no link is followed, a link too.
    Other,
}

/// Where paths lead.
pub trait Paths {
    /// What a path leads to, with all links followed, where that is told.
    ghost leads_to: { Self → List ℕ → Option Kind };

    /// What stands at a path, with no link followed at its end, where that is told.
    ghost stands_at: { Self → List ℕ → Option Kind };

    /// A path with all links resolved, where that is told of one at which something stands.
    ghost resolved: { Self → List ℕ → Option (List ℕ) };

    /// A path in its folder, of which all links are resolved, where that is told.
    ghost in_folder: { Self → List ℕ → Option (List ℕ) };

    /// What a path leads to, with all links followed.
    fn leads_to(&self, path: &str) -> Result<Kind, Failed>
        ensures kind { IfOk result (λ kind. IfSome (leads_to self.now path.now) (λ told. kind ≡ told)) }
        ensures fails { OnErr result (leads_to self.now path.now ≡ None) };

    /// What stands at a path, with no link followed at its end.
    fn stands_at(&self, path: &str) -> Result<Kind, Failed>
        ensures kind { IfOk result (λ kind. IfSome (stands_at self.now path.now) (λ told. kind ≡ told)) }
        ensures fails { OnErr result (stands_at self.now path.now ≡ None) };

    /// The path with all links resolved.
    fn resolved(&self, path: &str) -> Result<String, FileFault>
        ensures name { IfOk result (λ name. IfSome (resolved self.now path.now) (λ told. string_bytes name ≡ told)) }
        ensures fault { IfErr result (λ fault. fault ≢ FileFault.InUse) }
        ensures fails { IfErr result (λ fault. fault ≢ FileFault.NoMemory → resolved self.now path.now ≡ None) };

    /// The path in its folder, of which all links are resolved.
    fn in_folder(&self, path: &str) -> Result<String, FileFault>
        ensures name { IfOk result (λ name. IfSome (in_folder self.now path.now) (λ told. string_bytes name ≡ told)) }
        ensures fault { IfErr result (λ fault. fault ≢ FileFault.InUse) }
        ensures fails { IfErr result (λ fault. fault ≢ FileFault.NoMemory → in_folder self.now path.now ≡ None) };
}

/// Where a history is written.
#[derive(Drop)]
pub enum Place {
    /// To the file of this name, in which no link is left: a regular file, or none yet.
    File(String),
    /// To what the path leads to, which is something else, and can't be replaced.
    Stream,
}

/// Where a history's path leads. A link that leads nowhere can't be written. There may be no memory for the name.
pub fn found<D: Paths>(disk: &D, path: &str) -> Result<Place, FileFault>
    ensures place { IfOk result (λ place. IfSome (D.leads_to disk.now path.now) (λ leads. IfSome (D.stands_at disk.now path.now) (λ stands.
        IsPlaceOf leads stands (D.resolved disk.now path.now) (D.in_folder disk.now path.now) place))) }
    ensures fault { IfErr result (λ fault. fault ≢ FileFault.InUse) }
    ensures lost { IfErr result (λ fault. fault ≢ FileFault.NoMemory
        → IsLost (D.leads_to disk.now path.now) (D.stands_at disk.now path.now) (D.resolved disk.now path.now) (D.in_folder disk.now path.now)) }
{
    match disk.leads_to(path) {
        Ok(Kind::Regular) => match disk.resolved(path) {
            Ok(name) => Ok(Place::File(name)),
            Err(fault) => Err(fault),
        },
        Ok(Kind::Other) => Ok(Place::Stream),
        Ok(Kind::Nothing) => unmade(disk, path),
        Err(_) => Err(FileFault::CannotWrite),
    }
}

/// The name of a file that isn't there.
fn unmade<D: Paths>(disk: &D, path: &str) -> Result<Place, FileFault>
    ensures place { IfOk result (λ place. IfSome (D.stands_at disk.now path.now) (λ stands. stands ≡ Kind.Nothing) × HasName (D.in_folder disk.now path.now) place) }
    ensures fault { IfErr result (λ fault. fault ≢ FileFault.InUse) }
    ensures lost { IfErr result (λ fault. fault ≢ FileFault.NoMemory → IsLostLink (D.stands_at disk.now path.now) (D.in_folder disk.now path.now)) }
{
    match disk.stands_at(path) {
        Ok(Kind::Nothing) => match disk.in_folder(path) {
            Ok(name) => Ok(Place::File(name)),
            Err(fault) => Err(fault),
        },
        Ok(Kind::Regular) => Err(FileFault::CannotWrite),
        Ok(Kind::Other) => Err(FileFault::CannotWrite),
        Err(_) => Err(FileFault::CannotWrite),
    }
}
