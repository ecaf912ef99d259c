//! Jobs beside the loop, as a request that is added to the loop's own. Definitions alone.
#![tactic(auto)]
