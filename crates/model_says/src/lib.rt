//! What expressions give and what a coroutine says after its inputs. Definitions alone.
#![tactic(auto)]
