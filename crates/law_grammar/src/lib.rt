// The grammar of accepted files, and the theorem that Check accepts exactly those. No code stands here.
#![tactic(auto)]
