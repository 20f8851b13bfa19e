//! Tests of the edges, through public calls: lines, sources and sinks, devices in memory and over files, wires in memory, numbers as
//! bytes, and frames. They stand in a crate of their own, so that what they test isn't proved a second time with them.
#![tactic(auto)]

#[cfg(test)]
mod banks;
#[cfg(test)]
mod bytes;
#[cfg(test)]
mod files;
#[cfg(test)]
mod frame_parts;
#[cfg(test)]
mod frame_vectors;
#[cfg(test)]
mod frames_read;
#[cfg(test)]
mod frames_written;
#[cfg(test)]
mod lines;
#[cfg(test)]
mod made;
#[cfg(test)]
mod turns;
#[cfg(test)]
mod wires;
