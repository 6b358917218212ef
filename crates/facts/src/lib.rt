// What phases A to C give: theorems alone, in specs/.

#![tactic(auto)]
