//! Tests of what becomes of bytes and of scripts, by the public calls of `fit_files`, `fit_recordings`, `fit_scripts`, `fit_histories`,
//! `fit_runs` and of the libraries below them. They are in a crate above them, so that no library is proved again with its tests.
#![tactic(auto)]

#[cfg(test)]
mod direct;
#[cfg(test)]
mod equality;
#[cfg(test)]
mod exports;
#[cfg(test)]
mod failing;
#[cfg(test)]
mod histories;
#[cfg(test)]
mod output;
#[cfg(test)]
mod plains;
#[cfg(test)]
mod power_cuts;
#[cfg(test)]
mod random;
#[cfg(test)]
mod reading;
#[cfg(test)]
mod recordings;
#[cfg(test)]
mod reopening;
#[cfg(test)]
mod replays;
#[cfg(test)]
mod salvages;
#[cfg(test)]
mod saves;
#[cfg(test)]
mod scripts;
#[cfg(test)]
mod simulations;
#[cfg(test)]
mod sweep;
#[cfg(test)]
mod table;
#[cfg(test)]
mod verified;
