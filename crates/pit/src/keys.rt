//! The keys by which the sets of a run's transactions hash.
use pit_cli::Keys;
use pit_command::Command;
use std::random::RandomSource;

/// Keys that are drawn for this run, where it makes transactions; or those that everybody knows, also where nothing can be drawn.
pub fn keys_for(rt: &HostRuntime, command: &Command<'_>) -> Keys {
    match command {
        Command::Plan(_) | Command::Merge(_) | Command::Live(_) => drawn(rt),
        _ => Keys::default(),
    }
}

fn drawn(rt: &HostRuntime) -> Keys {
    let mut bytes = [0; 8];
    match rt.fill_bytes(&mut bytes) {
        Ok(()) => Keys::new(u64::from_le_bytes(bytes)),
        Err(_) => Keys::default(),
    }
}
