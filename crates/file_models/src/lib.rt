// No code: the models that are read. See specs/Models.antt.
#![tactic(auto)]
