// That the key's own call at an address is one call: the places of a key and what is hashed there. No code is here.
#![tactic(auto)]
