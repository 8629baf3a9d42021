// No code: document 01's starred cases as one statement about the definitions that the contracts cite.

#![tactic(auto)]
