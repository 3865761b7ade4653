//! Tests of the crates over files: images, machine files, loop files and jump files, what is printed, and hosts.
#![tactic(auto)]

#[cfg(test)]
mod debug_files;
#[cfg(test)]
mod elf_files;
#[cfg(test)]
mod fixtures;
#[cfg(test)]
mod hosts;
#[cfg(test)]
mod jump_files;
#[cfg(test)]
mod loop_files;
#[cfg(test)]
mod machine_files;
#[cfg(test)]
mod made_files;
#[cfg(test)]
mod prices;
#[cfg(test)]
mod printed_texts;
#[cfg(test)]
mod stored_files;
#[cfg(test)]
mod toml_tables;
