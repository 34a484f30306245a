//! That a caller needs nine crates alone: this one lists just these, `pit_num`, `pit_model`, `pit_text`, `pit_plan`, `pit_tx`, `pit_book`,
//! `pit_share`, `pit_run` and `pit_cli`, and its tests use what each is for.
#![tactic(auto)]

#[cfg(test)]
mod tests;
