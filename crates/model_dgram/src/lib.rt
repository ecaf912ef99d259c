//! Datagram endpoints, as requests that are added to the loop's own. Definitions alone.
#![tactic(auto)]
