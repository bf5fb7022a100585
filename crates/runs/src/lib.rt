// Demand 3, over any run of opening, adding and handling. There is no function here. proofs/Promises has the statements, specs/ what they
// are stated with: Run (what a caller does), Added and Reach (which addresses and which inputs), Alone (one address by itself), Tags (what
// was given and presented). proofs/Facts has what stands beside them, proofs/Cases a worked run.
// C1 goes by Sent, Own and Lives, from the table of Adding and Begun; C2 by Elsewhere; C4 by SomePlace, Succeeds, Told and History; C5 by
// Fresh. C3, C4 and C5 rest on C1: they are shown of one address alone.

#![tactic(auto)]
