// The types that a shader declares, and the varyings that they give: what the words of a type list mean, in specs/, and its laws, in proofs/.
#![tactic(auto)]
