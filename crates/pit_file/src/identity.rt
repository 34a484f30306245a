ghost use Rattle.std.specs.Prelude.{◌≡◌};
ghost use Rattle.pit_file.specs.Inputs.{is_one, is_input};

/// What a regular file is known by: the number of its device, and its own number there.
#[derive(Clone, Copy, Debug, PartialEq, Eq)]
pub struct FileIdentity {
    /// The number of its device.
    pub device: u64,
    /// Its own number on that device.
    pub number: u64,
}

/// Whether a file is one of the inputs. What isn't a regular file has no identity, and is none of them.
pub fn is_among(file: Option<FileIdentity>, inputs: &[Option<FileIdentity>]) -> bool
    ensures { result ≡ is_input file inputs.now }
{
    let Some(file) = file else {
        return false;
    };
    let mut rest = inputs;
    while !rest.is_empty() {
        if is_same(file, rest[0]) {
            return true;
        }
        rest = &rest[1..];
    }
    false
}

fn is_same(file: FileIdentity, input: Option<FileIdentity>) -> bool
    ensures { result ≡ is_one file input }
{
    let Some(input) = input else {
        return false;
    };
    file.device == input.device && file.number == input.number
}
