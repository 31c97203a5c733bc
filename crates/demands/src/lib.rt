// The three demands and the change requests that have landed, each sentence a theorem (specs/Demands.antt). No code of its own.
#![tactic(auto)]
