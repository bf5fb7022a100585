// The bench: from the bytes of its input to the bytes of its listing. The definitions stand in specs/.

#![tactic(auto)]
