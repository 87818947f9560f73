//! Scripts and what they print, by the public calls of `serve_script`.
#![tactic(auto)]

#[cfg(test)]
mod accounts;
#[cfg(test)]
mod admissions;
#[cfg(test)]
mod compare;
#[cfg(test)]
mod lines;
#[cfg(test)]
mod prefixes;
#[cfg(test)]
mod scripts;
#[cfg(test)]
mod starts;
