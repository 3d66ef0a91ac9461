//! The parts of the kernel, each by itself.
#![tactic(auto)]

#[cfg(test)]
mod devices;
#[cfg(test)]
mod elf_files;
#[cfg(test)]
mod errors;
#[cfg(test)]
mod files;
#[cfg(test)]
mod groups;
#[cfg(test)]
mod images;
#[cfg(test)]
mod origins;
#[cfg(test)]
mod pipes;
#[cfg(test)]
mod ports;
#[cfg(test)]
mod processes;
#[cfg(test)]
mod same;
#[cfg(test)]
mod signals;
#[cfg(test)]
mod values;
#[cfg(test)]
mod windows;
