//! Tests of the lists by name of manifests and values, called by hand; all else of manifests is tested by `manifest_scenarios`.
#![tactic(auto)]

#[cfg(test)]
mod entries;
#[cfg(test)]
mod features;
