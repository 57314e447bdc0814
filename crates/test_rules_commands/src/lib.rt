//! Tests of property tables, rules, machines, pages and the breaks of texts in memory; of the command line, its files
//! and faults; and of `break_text`; the code that the pages show, as tests.
#![tactic(auto)]

#[cfg(test)]
mod agreement;
#[cfg(test)]
mod breaks;
#[cfg(test)]
mod broken;
#[cfg(test)]
mod broken_text;
#[cfg(test)]
mod calls;
#[cfg(test)]
mod claims;
#[cfg(test)]
mod counted_loads;
#[cfg(test)]
mod decided;
#[cfg(test)]
mod deciding;
#[cfg(test)]
mod faults_told;
#[cfg(test)]
mod first_bytes;
#[cfg(test)]
mod guide;
#[cfg(test)]
mod laws;
#[cfg(test)]
mod owned_passages;
#[cfg(test)]
mod pages;
#[cfg(test)]
mod passages_of_a_reader;
#[cfg(test)]
mod property_calls;
#[cfg(test)]
mod reasons_told;
#[cfg(test)]
mod sample_ranges;
#[cfg(test)]
mod shown_text;
#[cfg(test)]
mod sizes_of_passages;
#[cfg(test)]
mod surface;
#[cfg(test)]
mod tables;
#[cfg(test)]
mod test_lines;
#[cfg(test)]
mod text_breaks;
#[cfg(test)]
mod text_breaks_proved;
